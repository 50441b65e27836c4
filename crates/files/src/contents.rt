//! What the files of a survey tell.

ghost use Rattle.std.specs.Prelude.{◌≡◌, ◌<◌, ◌≤◌, codes, length};
ghost use Rattle.files.specs.Contents.{baselines_of, baseline_of, table_head_of, profile_head_of};
ghost use Rattle.files.specs.Field.{line_of};

use super::baseline::Baseline;
use super::line::Field;
use theory::Record;

/// What the files of a survey's issue tell. There is a baseline to each span, but spans past the 64th are not read.
#[derive(Clone, Copy)]
pub struct Contents<'a> {
    /// The number of the survey.
    pub survey: u16,
    /// The number of the issue.
    pub issue: u16,
    /// How many imagers there are.
    pub imagers: u8,
    /// The span of each baseline.
    pub spans: &'a [u16],
    /// The imagers of each baseline, and which baselines are doubtful.
    pub record: &'a Record,
}

impl Contents<'_> {
    // How many baselines there are.
    pub(crate) fn baselines(&self) -> usize
        ensures same { result ≡ baselines_of self.now }
        ensures told { result ≤ length self.now.spans.now }
        ensures read { result ≤ 64 }
    {
        self.spans.len().min(64)
    }

    // What is told of baseline i.
    pub(crate) fn baseline(&self, i: usize) -> Baseline
        requires told { i < length self.now.spans.now }
        requires read { i < 64 }
        ensures { result ≡ baseline_of self.now i }
    {
        Baseline {
            number: i as u16,
            span: self.spans[i],
            entry: self.record.entries[i],
        }
    }

    // The fields of the table's first line.
    pub(crate) fn table_head(&self) -> [Field; 3]
        ensures { line_of (codes "T") result ≡ table_head_of self.now }
    {
        [
            Field::Number(self.survey),
            Field::Number(self.issue),
            Field::Number(self.baselines() as u16),
        ]
    }

    // The fields of the profile's first line.
    pub(crate) fn profile_head(&self) -> [Field; 3]
        ensures { line_of (codes "P") result ≡ profile_head_of self.now }
    {
        [
            Field::Number(self.survey),
            Field::Number(self.issue),
            Field::Number(u16::from(self.imagers)),
        ]
    }
}

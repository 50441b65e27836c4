//! Why a call refuses: one word for each refusal.

ghost use Rattle.std.specs.Prelude.{◌≡◌, Some};
ghost use Rattle.evidence.specs.Refusals.{number_of, detail_of, text_of};

use std::error::Error;
use std::fmt;

/// A refusal, with the detail that it names. docs/refusals.md lists them.
#[derive(Clone, Copy, PartialEq, Eq, Debug)]
pub enum Refusal {
    /// 6: more than 64 baselines.
    ManyBaselines,
    /// 7: a square of n baselines has not n × n bytes.
    SquareSize,
    /// 8: the byte at this place of a square is not 0 or 1, not zero on the diagonal, or not equal to its mirror.
    SquareByte(usize),
    /// 9: an issue is open.
    IssueOpen,
    /// 10: a span is 0.
    NoSpan,
    /// 11: there are 64 baselines already.
    Full,
    /// 12: a number is not below the count.
    PastCount,
    /// 13: the two numbers are equal.
    SameBaseline,
    /// 14: there is no room for another sharing pair.
    ManyPairs,
    /// 15: the survey is not resolved.
    Unresolved,
    /// 16: 9,999 issues were begun already.
    ManyIssues,
    /// 17: a paper is not that of the open issue at its stage.
    WrongPaper,
    /// 18: the cluster of this baseline, the lowest such, has no layout.
    NoLayout(usize),
    /// 19: there is no room for so many bytes.
    NoRoom(usize),
}

impl Refusal {
    /// The number of the refusal.
    pub fn number(self) -> u8
        ensures { result ≡ number_of self }
    {
        match self {
            Refusal::ManyBaselines => 6,
            Refusal::SquareSize => 7,
            Refusal::SquareByte(_) => 8,
            Refusal::IssueOpen => 9,
            Refusal::NoSpan => 10,
            Refusal::Full => 11,
            Refusal::PastCount => 12,
            Refusal::SameBaseline => 13,
            Refusal::ManyPairs => 14,
            Refusal::Unresolved => 15,
            Refusal::ManyIssues => 16,
            Refusal::WrongPaper => 17,
            Refusal::NoLayout(_) => 18,
            Refusal::NoRoom(_) => 19,
        }
    }

    /// The detail that the refusal names, or 0.
    pub fn detail(self) -> usize
        ensures { result ≡ detail_of self }
    {
        match self {
            Refusal::SquareByte(place) => place,
            Refusal::NoLayout(baseline) => baseline,
            Refusal::NoRoom(bytes) => bytes,
            Refusal::ManyBaselines
            | Refusal::SquareSize
            | Refusal::IssueOpen
            | Refusal::NoSpan
            | Refusal::Full
            | Refusal::PastCount
            | Refusal::SameBaseline
            | Refusal::ManyPairs
            | Refusal::Unresolved
            | Refusal::ManyIssues
            | Refusal::WrongPaper => 0,
        }
    }
}

/// The number and the detail.
impl fmt::Display for Refusal {
    ghost output = { λ r. Some (text_of r) };

    fn fmt<W: fmt::Write>(&self, f: &mut fmt::Formatter<W>) -> fmt::Result {
        let number = self.number();
        let detail = self.detail();
        write!(f, "{number}, detail {detail}")
    }
}

impl Error for Refusal {}

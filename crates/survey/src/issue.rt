//! Issues: begun, written out and ended.

ghost use Rattle.std.specs.Prelude.{◌≡◌, ◌+◌, ◌≤◌, cond, length, OnOk};
ghost use Rattle.std.specs.Option.{option_map};
ghost use Rattle.files.specs.Contents.{profile_of, table_of};
ghost use Rattle.survey.specs.Issues.{profile_by, table_by, profile_text, table_text};
ghost use Rattle.survey.specs.Papers.{admits, is_latest};
ghost use Rattle.survey.specs.History.{Begin, WriteProfile, WriteTable, Withdraw};
ghost use Rattle.survey.specs.Runs.{Leads};
ghost use Rattle.survey.specs.Views.{view, layout_of};

use super::papers::Paper;
use super::slip::{Closing, Opening, Slip};
use super::state::{Layout, State};
use super::survey::Survey;
use evidence::{Ledger, Refusal};
use files::{Contents, write_profile, write_table};

const MOST_ISSUES: u16 = 9999;

impl<L: Ledger> Survey<L> {
    /// Begins an issue, numbered one more than the issues begun so far, and gives its opening paper. Refused with 9 while an
    /// issue is open, else with 15 where the survey is not resolved, else with 16 after 9,999 issues. The two files of the
    /// issue have at most 4,096 bytes together.
    pub fn begin(&mut self) -> Result<Opening, Refusal>
        ensures made { Leads L.Evidence L.Ledger.own self.old (Begin result) self.new }
        ensures room { OnOk result (length (profile_text (view L.Evidence L.Ledger.own self.new)) + length (table_text (view L.Evidence L.Ledger.own self.new)) ≤ 4096) }
    {
        let begun = match self.state {
            State::Begun(_) | State::Profiled(_) => return Err(Refusal::IssueOpen),
            State::Unresolved => return Err(Refusal::Unresolved),
            State::Resolved(layout) => State::Begun(layout),
        };
        if self.begun >= MOST_ISSUES {
            return Err(Refusal::ManyIssues);
        }
        self.begun += 1;
        self.state = begun;
        Ok(Opening::new(self.number, self.begun))
    }

    /// Writes the lens profile of the open issue from a place of the buffer on, answers its length and gives the closing paper.
    /// Refused with 17 where the paper is not that of the open issue at its stage, else with 19 where there is no room; the
    /// paper is then handed back.
    pub fn profile(
        &mut self,
        paper: Opening,
        buffer: &mut [u8],
        place: usize,
    ) -> Result<(Closing, usize), (Opening, Refusal)>
        ensures { Leads L.Evidence L.Ledger.own self.old (WriteProfile paper place buffer.old buffer.new result) self.new }
    {
        let layout = match &self.state {
            State::Begun(layout) if self.is_latest(&paper) => layout,
            _ => return Err((paper, Refusal::WrongPaper)),
        };
        match write_profile(&self.contents(layout), buffer, place) {
            Ok(bytes) => {
                self.state = State::Profiled(*layout);
                Ok((paper.exchange(), bytes))
            }
            Err(refusal) => Err((paper, refusal)),
        }
    }

    /// Writes the rectification table of the open issue from a place of the buffer on, answers its length and ends the issue.
    /// Refused with 17 where the paper is not that of the open issue at its stage, else with 19 where there is no room; the
    /// paper is then handed back.
    pub fn table(
        &mut self,
        paper: Closing,
        buffer: &mut [u8],
        place: usize,
    ) -> Result<usize, (Closing, Refusal)>
        ensures { Leads L.Evidence L.Ledger.own self.old (WriteTable paper place buffer.old buffer.new result) self.new }
    {
        let layout = match &self.state {
            State::Profiled(layout) if self.is_latest(&paper) => layout,
            _ => return Err((paper, Refusal::WrongPaper)),
        };
        match write_table(&self.contents(layout), buffer, place) {
            Ok(bytes) => {
                paper.spend();
                self.state = State::Resolved(*layout);
                Ok(bytes)
            }
            Err(refusal) => Err((paper, refusal)),
        }
    }

    /// Ends the open issue and writes nothing. Refused with 17 where the paper is not that of the open issue at its stage; the
    /// paper is then handed back.
    pub fn withdraw(&mut self, paper: Paper) -> Result<(), (Paper, Refusal)>
        ensures { Leads L.Evidence L.Ledger.own self.old (Withdraw paper result) self.new }
    {
        let Some(layout) = self.admitted(&paper) else {
            return Err((paper, Refusal::WrongPaper));
        };
        paper.spend();
        self.state = State::Resolved(*layout);
        Ok(())
    }

    // The layout of the open issue, if this paper is that of the issue at its stage.
    fn admitted(&self, paper: &Paper) -> Option<&Layout>
        ensures { option_map (λ l. l.now) result ≡ cond (admits (view L.Evidence L.Ledger.own self.now) paper.now) (layout_of self.now.state) None }
    {
        match (paper, &self.state) {
            (Paper::Opens(slip), State::Begun(layout)) if self.is_latest(slip) => Some(layout),
            (Paper::Closes(slip), State::Profiled(layout)) if self.is_latest(slip) => Some(layout),
            _ => None,
        }
    }

    // Whether the numbers of a paper are those of this survey and of its latest issue.
    fn is_latest<For>(&self, paper: &Slip<For>) -> bool
        ensures { result ≡ is_latest (view L.Evidence L.Ledger.own self.now) paper.now }
    {
        paper.survey() == self.number && paper.issue() == self.begun
    }

    // What the files of the latest issue tell by this layout.
    fn contents<'a>(&'a self, layout: &'a Layout) -> Contents<'a>
        ensures profile { profile_of result ≡ profile_by (view L.Evidence L.Ledger.own self.now) layout.now }
        ensures table { table_of result ≡ table_by (view L.Evidence L.Ledger.own self.now) layout.now }
    {
        Contents {
            survey: self.number,
            issue: self.begun,
            imagers: layout.imagers,
            spans: self.spans.as_slice(),
            record: &layout.record,
        }
    }
}

//! What a resolved survey tells of its baselines.

ghost use Rattle.std.specs.Prelude.{◌≡◌};
ghost use Rattle.survey.specs.Told.{EntryTold, RecordTold, together};
ghost use Rattle.survey.specs.History.{AskEnds, AskCommon, AskDoubt};
ghost use Rattle.survey.specs.Runs.{Leads};
ghost use Rattle.survey.specs.Views.{view};

use super::state::State;
use super::survey::Survey;
use evidence::{Ledger, Refusal, ask_pair};
use theory::{Entry, Record};

impl<L: Ledger> Survey<L> {
    /// The two imagers of a baseline, the lower first. Refused with 12 where the number is not below the count, else with 15
    /// where the survey is not resolved.
    pub fn ends(&self, i: usize) -> Result<(u8, u8), Refusal>
        ensures { Leads L.Evidence L.Ledger.own self.now (AskEnds i result) self.now }
    {
        let entry = self.entry_of(i)?;
        Ok((entry.lower, entry.higher))
    }

    /// The imager that two baselines have together, if they have one. Refused with 12 where a number is not below the count,
    /// else with 13 where the two are equal, else with 15 where the survey is not resolved.
    pub fn common(&self, i: usize, j: usize) -> Result<Option<u8>, Refusal>
        ensures { Leads L.Evidence L.Ledger.own self.now (AskCommon i j result) self.now }
    {
        ask_pair(self.ledger.count(), i, j)?;
        let record = self.record()?;
        Ok(together(record.entries[i], record.entries[j]))
    }

    /// Whether a baseline is doubtful. Refused with 12 where the number is not below the count, else with 15 where the survey
    /// is not resolved.
    pub fn doubtful(&self, i: usize) -> Result<bool, Refusal>
        ensures { Leads L.Evidence L.Ledger.own self.now (AskDoubt i result) self.now }
    {
        Ok(self.entry_of(i)?.doubtful)
    }

    // What is kept of a baseline.
    fn entry_of(&self, i: usize) -> Result<Entry, Refusal>
        ensures { EntryTold (view L.Evidence L.Ledger.own self.now) i result }
    {
        if i >= self.ledger.count() {
            return Err(Refusal::PastCount);
        }
        Ok(self.record()?.entries[i])
    }

    // The record that is kept of the baselines.
    fn record(&self) -> Result<&Record, Refusal>
        ensures { RecordTold (view L.Evidence L.Ledger.own self.now) result }
    {
        match &self.state {
            State::Unresolved => Err(Refusal::Unresolved),
            State::Resolved(layout) | State::Begun(layout) | State::Profiled(layout) => {
                Ok(&layout.record)
            }
        }
    }
}

// The imager that two baselines have together.
fn together(d: Entry, e: Entry) -> Option<u8>
    ensures { result ≡ together (d.lower, d.higher) (e.lower, e.higher) }
{
    if d.lower == e.lower || d.lower == e.higher {
        Some(d.lower)
    } else if d.higher == e.lower || d.higher == e.higher {
        Some(d.higher)
    } else {
        None
    }
}

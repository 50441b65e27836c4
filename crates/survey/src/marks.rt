//! What is enlisted and marked in a survey.

ghost use Rattle.std.specs.Prelude.{◌≡◌, true, false};
ghost use Rattle.survey.specs.Marks.{Marked};
ghost use Rattle.survey.specs.History.{Enlist, Share, Part};
ghost use Rattle.survey.specs.Runs.{Leads};
ghost use Rattle.survey.specs.Views.{view};

use super::state::State;
use super::survey::Survey;
use evidence::{Ledger, Refusal};

impl<L: Ledger> Survey<L> {
    /// Enlists a baseline of this span, answers its number, and makes the survey unresolved. Refused with 9 while an issue is
    /// open, else with 10 where the span is 0, else with 11 at 64 baselines.
    pub fn enlist(&mut self, span: u16) -> Result<usize, Refusal>
        ensures { Leads L.Evidence L.Ledger.own self.old (Enlist span result) self.new }
    {
        self.ask_idle()?;
        if span == 0 {
            return Err(Refusal::NoSpan);
        }
        let baseline = self.ledger.grow()?;
        self.spans.push(span);
        self.state = State::Unresolved;
        Ok(baseline)
    }

    /// Marks that two baselines share, and answers whether they did not; a change makes the survey unresolved. Refused with 9
    /// while an issue is open, else with 12 where a number is not below the count, else with 13 where the two are equal, else
    /// with 14 where there is no room for a new sharing pair.
    pub fn share(&mut self, i: usize, j: usize) -> Result<bool, Refusal>
        ensures { Leads L.Evidence L.Ledger.own self.old (Share i j result) self.new }
    {
        self.mark(i, j, true)
    }

    /// Marks that two baselines do not share, and answers whether they did; a change makes the survey unresolved. Refused
    /// with 9 while an issue is open, else with 12 where a number is not below the count, else with 13 where the two are equal.
    pub fn part(&mut self, i: usize, j: usize) -> Result<bool, Refusal>
        ensures { Leads L.Evidence L.Ledger.own self.old (Part i j result) self.new }
    {
        self.mark(i, j, false)
    }

    // Gives a pair the wanted state.
    fn mark(&mut self, i: usize, j: usize, on: bool) -> Result<bool, Refusal>
        ensures { Marked (view L.Evidence L.Ledger.own self.old) i j on result (view L.Evidence L.Ledger.own self.new) }
    {
        self.ask_idle()?;
        let changed = self.ledger.set(i, j, on)?;
        if changed {
            self.state = State::Unresolved;
        }
        Ok(changed)
    }
}

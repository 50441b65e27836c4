//! How a survey is opened.

ghost use Rattle.std.specs.Prelude.{◌≡◌, true, [], ◌∷◌, OnOk};
ghost use Rattle.evidence.specs.declared.refusal.Refusal.TheVariants.{IssueOpen};
ghost use Rattle.evidence.specs.Refusals.{Asked};
ghost use Rattle.survey.specs.Law.{Lawful};
ghost use Rattle.survey.specs.Views.{view, idle, Fresh};

use super::stage::Stage;
use super::state::State;
use super::survey::Survey;
use arrayvec::ArrayVec;
use evidence::{Ledger, Refusal};

impl<L: Ledger> Survey<L> {
    /// Opens a survey: no baselines, unresolved, no issue begun. The ledger is cleared. Every run of calls from here keeps the
    /// law of surveys.
    pub fn open(number: u16, mut ledger: L) -> Survey<L>
        ensures fresh { Fresh number (L.Ledger.most ledger) (view L.Evidence L.Ledger.own result) }
        ensures lawful { Lawful L.Evidence L.Ledger.own number (L.Ledger.most ledger) result }
    {
        ledger.clear();
        Survey {
            number,
            ledger,
            spans: ArrayVec::new(),
            state: State::Unresolved,
            begun: 0,
        }
    }

    // Asks whether no issue is open. Refused with 9 while one is.
    pub(crate) fn ask_idle(&self) -> Result<(), Refusal>
        ensures asked { Asked ((idle self.now.state, IssueOpen) ∷ []) result }
        ensures idle { OnOk result (idle self.now.state ≡ true) }
    {
        match self.state.stage() {
            Stage::Idle => Ok(()),
            Stage::Begun | Stage::Profiled => Err(Refusal::IssueOpen),
        }
    }
}

//! A survey is resolved.

ghost use Rattle.std.specs.Prelude.{◌≡◌, ◌≤◌, IfOk};
ghost use Rattle.theory.specs.Record.{doubt_of};
ghost use Rattle.survey.specs.Resolves.{how_many};
ghost use Rattle.survey.specs.History.{Resolve};
ghost use Rattle.survey.specs.Runs.{Leads};

use super::state::{Layout, State};
use super::survey::{Resolution, Survey};
use evidence::{Ledger, Refusal};
use layout::place;
use theory::Record;

impl<L: Ledger> Survey<L> {
    /// Finds the layout of the survey and keeps it, and answers how many imagers and how many doubtful baselines there are.
    /// Refused with 9 while an issue is open, else with 18 where a cluster has no layout; the survey is then as it was.
    pub fn resolve(&mut self) -> Result<Resolution, Refusal>
        ensures made { Leads L.Evidence L.Ledger.own self.old (Resolve result) self.new }
        ensures few { IfOk result (λ found. (found.imagers ≤ 128) × (found.doubtful ≤ 64)) }
    {
        self.ask_idle()?;
        let mut record = Record::new();
        let imagers = place(&self.ledger, &mut record)?;
        let doubtful = count_doubtful(&record, self.ledger.count());
        self.state = State::Resolved(Layout {
            record,
            imagers: imagers as u8,
        });
        Ok(Resolution { imagers, doubtful })
    }
}

// How many of the first baselines are doubtful.
fn count_doubtful(told: &Record, count: usize) -> usize
    requires { count ≤ 64 }
    ensures same { result ≡ how_many (doubt_of told.now) count }
    ensures few { result ≤ count }
{
    told.entries[..count]
        .iter()
        .filter(|entry| entry.doubtful)
        .count()
}

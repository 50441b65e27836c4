//! Two baselines are enlisted and marked.

ghost use Rattle.worked.specs.Deeds.{MarksRight};

use super::answers::Marks;
use evidence::Ledger;
use survey::Survey;

// Enlists two baselines, and marks twice that they share, in either order.
pub(crate) fn mark<L: Ledger>(survey: &mut Survey<L>) -> Marks
    ensures { MarksRight L.Evidence L.Ledger.own survey.old result survey.new }
{
    Marks {
        first: survey.enlist(500),
        second: survey.enlist(620),
        shared: survey.share(0, 1),
        again: survey.share(1, 0),
    }
}

//! The survey is resolved and asked.

ghost use Rattle.worked.specs.Deeds.{TellingsRight};

use super::answers::Tellings;
use evidence::Ledger;
use survey::Survey;

// Asks before the survey is resolved, resolves it, and asks again.
pub(crate) fn ask<L: Ledger>(survey: &mut Survey<L>) -> Tellings
    ensures { TellingsRight L.Evidence L.Ledger.own survey.old result survey.new }
{
    Tellings {
        early: survey.ends(0),
        resolved: survey.resolve(),
        first: survey.ends(0),
        second: survey.ends(1),
        common: survey.common(0, 1),
        doubtful: survey.doubtful(0),
    }
}

//! A whole issue in one reply.

ghost use Rattle.lines.specs.Served.{Served};

use super::reply::REPLY;
use super::request::Request;
use evidence::{Ledger, Refusal};
use survey::Survey;

// Begins an issue, writes its profile and its table into the reply, one after the other, and so ends it. The papers are those of
// the issue, and there is room for both files, so nothing is refused but the begin.
pub fn issue<L: Ledger>(survey: &mut Survey<L>, reply: &mut [u8; REPLY]) -> Result<usize, Refusal>
    ensures { Served L.Evidence L.Ledger.own survey.old Request.Issue reply.old reply.new result survey.new }
{
    let opening = survey.begin()?;
    let (closing, profile) = survey.profile(opening, reply, 0).unwrap();
    let table = survey.table(closing, reply, profile).unwrap();
    Ok(profile + table)
}

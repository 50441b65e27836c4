//! The worked rigs, each marked and resolved in a survey over both ledgers.

use super::marks::enlist;
use evidence::{Ledger, Refusal};
use ledgers::{PairList, WordGrid};
use std::process::Abort;
use std::test::Fail;
use survey::Survey;
use worked_rigs::{Laid, RIGS, Rig};

// Enlists and marks a rig.
fn mark<L: Ledger>(rt: &impl Abort, survey: &mut Survey<L>, rig: &Rig) {
    enlist(rt, survey, rig.count);
    for (i, j) in rig.sharing {
        assert_eq!(rt; survey.share(*i, *j), Ok(true));
    }
}

// A survey tells a layout of its baselines.
fn tells<L: Ledger>(rt: &impl Abort, survey: &Survey<L>, laid: Laid) {
    for (i, ends) in laid.ends.iter().enumerate() {
        assert_eq!(rt; survey.ends(i), Ok(*ends));
        assert_eq!(rt; survey.doubtful(i), Ok(laid.doubtful));
    }
    assert_eq!(rt; survey.doubtful(laid.ends.len()), Err(Refusal::PastCount));
}

// Resolving a marked rig has its outcome.
fn comes_out<L: Ledger>(rt: &impl Abort, survey: &mut Survey<L>, rig: &Rig) -> Result<(), Fail> {
    match (survey.resolve(), rig.outcome) {
        (Ok(found), Ok(laid)) => {
            assert_eq!(rt; laid.ends.len(), rig.count);
            assert_eq!(rt; found.imagers, usize::from(laid.imagers));
            assert_eq!(rt; found.doubtful, if laid.doubtful { rig.count } else { 0 });
            tells(rt, survey, laid);
            Ok(())
        }
        (Err(refusal), Err(expected)) => {
            assert_eq!(rt; refusal, expected);
            assert_eq!(rt; survey.doubtful(0), Err(Refusal::Unresolved));
            Ok(())
        }
        _ => Err(Fail::new("another outcome")),
    }
}

// Every rig comes out, each in a survey of its own over a new ledger.
fn rigs<L: Ledger + Drop, F: Fn() -> L>(rt: &impl Abort, new: F) -> Result<(), Fail>
    requires { F.IsAlwaysCallable new }
{
    for rig in &RIGS {
        let mut survey = Survey::open(1, new());
        mark(rt, &mut survey, rig);
        comes_out(rt, &mut survey, rig)?;
    }
    Ok(())
}

#[test]
fn rigs_over_a_grid(rt: HostRuntime) -> Result<(), Fail> {
    rigs(&rt, WordGrid::new)
}

#[test]
fn rigs_over_a_list(rt: HostRuntime) -> Result<(), Fail> {
    rigs(&rt, PairList::new)
}

//! What is marked, resolved and told over both ledgers, and the refusals on the way.

use evidence::{Ledger, Refusal};
use ledgers::{PairList, WordGrid};
use std::process::Abort;
use survey::{Resolution, Survey};

/// Enlists so many baselines in a survey that has none.
pub fn enlist<L: Ledger>(rt: &impl Abort, survey: &mut Survey<L>, count: usize) {
    for i in 0..count {
        assert_eq!(rt; survey.enlist(500), Ok(i));
    }
}

// Two baselines that share, and two that share with none.
fn one_pair<L: Ledger>(rt: &impl Abort, survey: &mut Survey<L>) {
    assert_eq!(rt; survey.share(1, 0), Ok(true));
    assert_eq!(rt; survey.ends(0), Err(Refusal::Unresolved));
    assert_eq!(rt;
        survey.resolve(),
        Ok(Resolution {
            imagers: 7,
            doubtful: 0
        })
    );
    assert_eq!(rt; survey.ends(0), Ok((0, 1)));
    assert_eq!(rt; survey.ends(1), Ok((0, 2)));
    assert_eq!(rt; survey.common(1, 0), Ok(Some(0)));
    assert_eq!(rt; survey.common(1, 2), Ok(None));
    assert_eq!(rt; survey.share(0, 1), Ok(false));
    assert_eq!(rt; survey.doubtful(1), Ok(false));
    assert_eq!(rt; survey.doubtful(4), Err(Refusal::PastCount));
}

// Three that share with each other are doubtful; a baseline with three that do not share has no layout.
fn three_and_claw<L: Ledger>(rt: &impl Abort, survey: &mut Survey<L>) {
    assert_eq!(rt; survey.share(0, 2), Ok(true));
    assert_eq!(rt; survey.share(1, 2), Ok(true));
    assert_eq!(rt; survey.doubtful(1), Err(Refusal::Unresolved));
    assert_eq!(rt;
        survey.resolve(),
        Ok(Resolution {
            imagers: 6,
            doubtful: 3
        })
    );
    assert_eq!(rt; survey.doubtful(1), Ok(true));
    assert_eq!(rt; survey.doubtful(3), Ok(false));
    assert_eq!(rt; survey.part(1, 2), Ok(true));
    assert_eq!(rt; survey.share(3, 0), Ok(true));
    assert_eq!(rt; survey.resolve(), Err(Refusal::NoLayout(0)));
    assert_eq!(rt; survey.doubtful(1), Err(Refusal::Unresolved));
}

// The questions of enlist, share and part.
fn refusals<L: Ledger>(rt: &impl Abort, survey: &mut Survey<L>) {
    assert_eq!(rt; survey.enlist(0), Err(Refusal::NoSpan));
    assert_eq!(rt; survey.share(0, 4), Err(Refusal::PastCount));
    assert_eq!(rt; survey.part(3, 3), Err(Refusal::SameBaseline));
}

// A marking that was refused.
#[derive(Clone, Copy, Debug, PartialEq)]
struct Stopped {
    // How many pairs were marked before.
    marked: usize,
    refusal: Refusal,
}

// Shares the pairs of the first 33 baselines, 528 in all, in their order, and answers how many were marked.
fn share_many<L: Ledger>(survey: &mut Survey<L>) -> Result<usize, Stopped> {
    (0..33)
        .flat_map(|i| (0..i).map(move |j| (i, j)))
        .try_fold(0usize, |marked, (i, j)| match survey.share(i, j) {
            Ok(_) => Ok(marked.saturating_add(1)),
            Err(refusal) => Err(Stopped { marked, refusal }),
        })
}

fn marks<L: Ledger + Drop>(rt: &impl Abort, ledger: L) {
    let mut survey = Survey::open(1, ledger);
    enlist(rt, &mut survey, 4);
    refusals(rt, &mut survey);
    one_pair(rt, &mut survey);
    three_and_claw(rt, &mut survey);
}

// The 64th baseline is number 63, and there is no 65th; so many of the 528 pairs are marked.
fn full<L: Ledger + Drop>(rt: &impl Abort, ledger: L, marked: Result<usize, Stopped>) {
    let mut survey = Survey::open(1, ledger);
    enlist(rt, &mut survey, 64);
    assert_eq!(rt; survey.enlist(500), Err(Refusal::Full));
    assert_eq!(rt; share_many(&mut survey), marked);
}

#[test]
fn over_a_grid(rt: HostRuntime) {
    marks(&rt, WordGrid::new());
}

#[test]
fn over_a_list(rt: HostRuntime) {
    marks(&rt, PairList::new());
}

#[test]
fn full_over_a_grid(rt: HostRuntime) {
    full(&rt, WordGrid::new(), Ok(528));
}

#[test]
fn full_over_a_list(rt: HostRuntime) {
    let stopped = Stopped {
        marked: 512,
        refusal: Refusal::ManyPairs,
    };
    full(&rt, PairList::new(), Err(stopped));
}

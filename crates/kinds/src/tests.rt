//! The kinds and the ledgers on examples.

use super::Ring;
use evidence::{Beside, Drawing, Evidence, Ledger, Refusal, Square};
use ledgers::{PairList, WordGrid};
use std::process::Abort;

// The 64th baseline is number 63, and there is no 65th.
fn fill<L: Ledger>(rt: &impl Abort, ledger: &mut L) {
    ledger.clear();
    for i in 0..64usize {
        assert_eq!(rt; ledger.grow(), Ok(i));
    }
    assert_eq!(rt; ledger.grow(), Err(Refusal::Full));
    assert_eq!(rt; ledger.count(), 64);
}

// Sets so many pairs to share, of which there are as many.
fn share_first<L: Ledger>(rt: &impl Abort, ledger: &mut L, most: usize) {
    let pairs = (0..64usize).flat_map(|i| (0..i).map(move |j| (i, j)));
    let changes = pairs.take(most).map(|(i, j)| ledger.set(i, j, true));
    assert_eq!(rt; changes.filter(|change| *change == Ok(true)).count(), most);
}

// The questions of `set`, in their order.
fn refuses<L: Ledger>(rt: &impl Abort, ledger: &mut L) {
    assert_eq!(rt; ledger.set(64, 0, true), Err(Refusal::PastCount));
    assert_eq!(rt; ledger.set(99, 99, false), Err(Refusal::PastCount));
    assert_eq!(rt; ledger.set(7, 7, true), Err(Refusal::SameBaseline));
}

#[test]
fn pair_list_is_full_at_512(rt: HostRuntime) {
    let mut list = PairList::new();
    assert_eq!(rt; list.most(), 512);
    fill(&rt, &mut list);
    refuses(&rt, &mut list);
    share_first(&rt, &mut list, 512);
    assert_eq!(rt; list.set(63, 62, true), Err(Refusal::ManyPairs));
    assert!(rt; !list.shares(63, 62));
    assert_eq!(rt; list.set(0, 1, true), Ok(false));
    assert_eq!(rt; list.set(0, 1, false), Ok(true));
    assert_eq!(rt; list.set(62, 63, true), Ok(true));
    assert!(rt; list.shares(63, 62));
}

#[test]
fn word_grid_has_room_for_all(rt: HostRuntime) {
    let mut grid = WordGrid::new();
    assert_eq!(rt; grid.most(), 2016);
    fill(&rt, &mut grid);
    refuses(&rt, &mut grid);
    share_first(&rt, &mut grid, 2016);
    assert_eq!(rt; grid.set(63, 62, true), Ok(false));
    assert_eq!(rt; grid.set(63, 62, false), Ok(true));
    assert!(rt; !grid.shares(62, 63));
}

#[test]
fn drawings(rt: HostRuntime) {
    let rig = Drawing {
        bytes: &[5, 5, 5, 7, 5, 5, 1, 2, 2, 1, 9],
    };
    assert_eq!(rt; rig.count(), 5);
    assert!(rt; rig.shares(0, 1));
    assert!(rt; rig.shares(0, 2));
    assert!(rt; !rig.shares(3, 4));
    assert!(rt; !rig.shares(1, 1));
    assert!(rt; !rig.is_proper());
}

// How many baselines a square has, and whether 0 shares with 1 and with 2.
fn first_row(n: u64, bytes: &[u8]) -> (usize, bool, bool) {
    let square = Square { n, bytes };
    (square.count(), square.shares(0, 1), square.shares(0, 2))
}

#[test]
fn squares(rt: HostRuntime) {
    assert_eq!(rt;
        first_row(3, &[0, 1, 1, 1, 0, 0, 0, 0, 0]),
        (3, true, false)
    );
    assert_eq!(rt; first_row(3, &[0, 1, 1, 1, 0, 0, 0, 0]), (0, false, false));
    assert_eq!(rt; first_row(4294967296, &[]), (0, false, false));
}

#[test]
fn beside_each_other(rt: HostRuntime) {
    let rings = Beside {
        first: Ring { size: 40 },
        second: Ring { size: 40 },
    };
    assert_eq!(rt; rings.count(), 64);
    assert!(rt; rings.shares(39, 0));
    assert!(rt; !rings.shares(39, 40));
    assert!(rt; rings.shares(40, 41));
    assert!(rt; !rings.shares(63, 64));
}

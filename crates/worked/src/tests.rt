//! The list of calls, run over both ledgers.

use super::{Lengths, two_baselines};
use evidence::{Ledger, Refusal};
use ledgers::{PairList, WordGrid};
use std::process::Abort;

// The two files of survey 7, with a byte after them that is not written.
const FILES: &[u8] =
    b"P,7,1,3\nL,0,0,500\nL,0,1,620\nL,1,0,500\nL,2,1,620\nT,7,1,2\nR,0,0,1,500,C\nR,1,0,2,620,C\n.";

// The files come out byte for byte where there is room for them, and else the table is refused.
fn files_come_out<L: Ledger + Drop>(rt: &impl Abort, roomy: L, tight: L) {
    let mut buffer = [b'.'; 85];
    let answers = two_baselines(7, roomy, &mut buffer);
    assert_eq!(rt; answers.marks.second, Ok(1));
    assert_eq!(rt; answers.tellings.second, Ok((0, 2)));
    assert!(rt; buffer.as_slice() == FILES);
    let lengths = Lengths {
        profile: 48,
        table: 36,
    };
    assert_eq!(rt; answers.lengths, Ok(lengths));
    let mut buffer = [b'.'; 83];
    let answers = two_baselines(7, tight, &mut buffer);
    assert_eq!(rt; answers.lengths, Err(Refusal::NoRoom(36)));
}

#[test]
fn over_a_grid(rt: HostRuntime) {
    files_come_out(&rt, WordGrid::new(), WordGrid::new());
}

#[test]
fn over_a_list(rt: HostRuntime) {
    files_come_out(&rt, PairList::new(), PairList::new());
}

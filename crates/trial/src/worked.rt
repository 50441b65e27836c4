//! The worked rigs, each placed through every kind of evidence.

use super::ends::{Ends, bytes_of};
use super::score::Score;
use super::table::fill;
use super::told::{Told, ends_of};
use evidence::{Beside, Drawing, Evidence, Refusal, Square};
use itertools::Itertools;
use ledgers::{PairList, WordGrid};
use std::alloc::{AllocError, Global};
use worked_rigs::{Laid, RIGS, Rig};

// Whether placing the evidence comes to this outcome.
fn outcome_is<E: Evidence>(evidence: &E, outcome: Result<Laid, Refusal>) -> bool {
    match (Told::of(evidence), outcome) {
        (Ok(told), Ok(laid)) => {
            told.imagers == usize::from(laid.imagers)
                && told
                    .entries()
                    .iter()
                    .map(ends_of)
                    .eq(laid.ends.iter().copied())
                && told
                    .entries()
                    .iter()
                    .all(|entry| entry.doubtful == laid.doubtful)
                && told.is_layout_of(evidence)
        }
        (Err(refusal), Err(expected)) => refusal == expected,
        _ => false,
    }
}

// Whether two baselines of a rig share.
fn shares(rig: &Rig, i: usize, j: usize) -> bool {
    rig.sharing.contains(&(i.min(j), i.max(j)))
}

// The bytes of the square of a rig.
fn square_of(alloc: Global, rig: &Rig) -> Result<Vec<u8>, AllocError> {
    (0..rig.count)
        .cartesian_product(0..rig.count)
        .map(|(i, j)| u8::from(shares(rig, i, j)))
        .collect(alloc)
}

// Whether the drawing of a rig's layout has its outcome. A rig with no layout has no drawing.
fn drawing_right(alloc: Global, rig: &Rig) -> Result<bool, AllocError> {
    let Ok(laid) = rig.outcome else {
        return Ok(true);
    };
    let bytes = bytes_of(alloc, laid.ends)?;
    let drawing = Drawing {
        bytes: bytes.as_slice(),
    };
    Ok(outcome_is(&drawing, rig.outcome))
}

// Whether two copies of the rig beside each other are placed as each is, the second's imagers after the first's.
fn copies_right<E: Evidence>(alloc: Global, two: &E, rig: &Rig) -> Result<bool, AllocError> {
    let Ok(laid) = rig.outcome else {
        return Ok(outcome_is(two, rig.outcome));
    };
    let after = |imager: u8| imager.saturating_add(laid.imagers);
    let second = laid.ends.iter().map(|ends| (after(ends.0), after(ends.1)));
    let ends: Vec<Ends> = laid.ends.iter().copied().chain(second).collect(alloc)?;
    let both = Laid {
        imagers: after(laid.imagers),
        ends: ends.as_slice(),
        doubtful: laid.doubtful,
    };
    Ok(outcome_is(two, Ok(both)))
}

// One rig placed in five ways.
fn note_ways(alloc: Global, rig: &Rig, score: &mut Score) -> anyhow::Result<()> {
    let mut grid = WordGrid::new();
    fill(&mut grid, rig.count, |i, j| shares(rig, i, j))?;
    let mut list = PairList::new();
    fill(&mut list, rig.count, |i, j| shares(rig, i, j))?;
    let bytes = square_of(alloc, rig)?;
    let square = Square {
        n: rig.count as u64,
        bytes: bytes.as_slice(),
    };
    score.note(outcome_is(&grid, rig.outcome));
    score.note(outcome_is(&list, rig.outcome));
    score.note(outcome_is(&square, rig.outcome));
    score.note(drawing_right(alloc, rig)?);
    let two = Beside {
        first: grid,
        second: list,
    };
    score.note(copies_right(alloc, &two, rig)?);
    Ok(())
}

/// The worked rigs, each placed in five ways.
pub fn run(alloc: Global) -> anyhow::Result<Score> {
    let mut score = Score::default();
    for rig in &RIGS {
        note_ways(alloc, rig, &mut score)?;
    }
    Ok(score)
}

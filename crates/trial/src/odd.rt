//! Odd cases, each with what is known to come of it.

use super::score::Score;
use super::table::fill;
use super::told::Told;
use evidence::{Drawing, Evidence, Ledger, Refusal};
use ledgers::WordGrid;

// Whether an evidence is refused because the cluster of this baseline has no layout.
fn clashes_at<E: Evidence>(evidence: &E, baseline: usize) -> bool {
    Told::of(evidence).err() == Some(Refusal::NoLayout(baseline))
}

// How many imagers and doubtful baselines the layout of an evidence has, where it is a layout and numbered.
fn layout_of<E: Evidence>(evidence: &E) -> Option<(usize, usize)> {
    let told = Told::of(evidence).ok()?;
    (told.is_layout_of(evidence) && told.is_numbered()).then(|| (told.imagers, told.doubtful()))
}

// The four doubtful shapes beside each other: three all sharing; four with one pair apart; five, one of which shares with a
// ring of the others; six of which each shares with all but one.
const SHAPES: [u8; 36] = [
    0, 1, 0, 2, 0, 3, 10, 11, 10, 12, 10, 13, 11, 12, 20, 21, 20, 22, 20, 23, 21, 23, 21, 22, 30,
    31, 30, 32, 30, 33, 31, 32, 31, 33, 32, 33,
];

// Improper drawings, one cluster that fails among several, and the four doubtful shapes beside each other.
fn drawings(score: &mut Score) {
    score.note(
        layout_of(&Drawing {
            bytes: &[5, 5, 5, 7],
        }) == Some((3, 0)),
    );
    score.note(
        layout_of(&Drawing {
            bytes: &[1, 2, 2, 1],
        }) == Some((4, 0)),
    );
    score.note(clashes_at(
        &Drawing {
            bytes: &[8, 9, 1, 2, 1, 3, 3, 1, 2, 4],
        },
        1,
    ));
    score.note(layout_of(&Drawing { bytes: &SHAPES }) == Some((16, 18)));
}

// 64 lone baselines, 64 that all share, and a path of 64 with and without a pair too many.
fn full_tables(score: &mut Score) -> Result<(), Refusal> {
    let mut grid = WordGrid::new();
    fill(&mut grid, 64, |_, _| false)?;
    score.note(layout_of(&grid) == Some((128, 0)));
    fill(&mut grid, 64, |_, _| true)?;
    score.note(layout_of(&grid) == Some((65, 0)));
    fill(&mut grid, 64, |i, j| i.abs_diff(j) == 1)?;
    score.note(layout_of(&grid) == Some((65, 0)));
    grid.set(63, 10, true)?;
    score.note(clashes_at(&grid, 0));
    Ok(())
}

/// Odd drawings, and odd tables of 64 baselines.
pub fn odd_cases() -> Result<Score, Refusal> {
    let mut score = Score::default();
    drawings(&mut score);
    full_tables(&mut score)?;
    Ok(score)
}

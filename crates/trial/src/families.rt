//! Families of trials: random drawings, damaged tables, and all small tables.

use super::by_definition::confirms;
use super::ends::{Ends, bytes_of, has_trio};
use super::random::{Random, draw};
use super::score::Score;
use super::table::fill;
use super::told::{Told, ends_of};
use evidence::{Drawing, Evidence, Ledger};
use itertools::Itertools;
use ledgers::WordGrid;
use std::alloc::{AllocError, Global};

// Whether the layout groups the baselines that are not doubtful as they were drawn.
fn groups_as_drawn(alloc: Global, drawing: &[Ends], told: &Told) -> Result<bool, AllocError> {
    let certain: Vec<(Ends, Ends)> = drawing
        .iter()
        .zip(told.entries())
        .filter(|(_, entry)| !entry.doubtful)
        .map(|(drawn, entry)| (*drawn, ends_of(entry)))
        .collect(alloc)?;
    let certain = certain.as_slice();
    Ok(
        certain.iter().enumerate().all(|(k, f)| {
            certain[..k].iter().enumerate().all(|(j, e)| {
                certain[..j]
                    .iter()
                    .all(|d| has_trio(d.0, e.0, f.0) == has_trio(d.1, e.1, f.1))
            })
        }),
    )
}

// Whether a proper drawing is placed as it was drawn.
fn drawn_back(alloc: Global, drawing: &[Ends]) -> Result<bool, AllocError> {
    let bytes = bytes_of(alloc, drawing)?;
    let rig = Drawing {
        bytes: bytes.as_slice(),
    };
    let Ok(told) = Told::of(&rig) else {
        return Ok(false);
    };
    Ok(
        rig.is_proper()
            && told.is_layout_of(&rig)
            && told.is_numbered()
            && groups_as_drawn(alloc, drawing, &told)?,
    )
}

/// Random drawings, each placed back.
pub fn random_drawings(alloc: Global, seed: u64, turns: usize) -> Result<Score, AllocError> {
    let mut random = Random::new(seed);
    let mut score = Score::default();
    for _turn in 0..turns {
        let imagers = random.below(40).saturating_add(2);
        let wanted = usize::from(random.below(65));
        let drawing = draw(alloc, &mut random, wanted, imagers)?;
        score.note(drawn_back(alloc, drawing.as_slice())?);
    }
    Ok(score)
}

// The table of a small drawing, with a pair of it changed.
fn damage(alloc: Global, random: &mut Random, grid: &mut WordGrid) -> anyhow::Result<()> {
    let imagers = random.below(5).saturating_add(2);
    let wanted = usize::from(random.below(7));
    let drawing = draw(alloc, random, wanted, imagers)?;
    let bytes = bytes_of(alloc, drawing.as_slice())?;
    let rig = Drawing {
        bytes: bytes.as_slice(),
    };
    let count = rig.count();
    fill(grid, count, |i, j| rig.shares(i, j))?;
    let (i, j) = (usize::from(random.below(6)), usize::from(random.below(6)));
    if i < count && j < count && i != j {
        let shared = grid.shares(i, j);
        grid.set(i, j, !shared)?;
    }
    Ok(())
}

/// Tables of small drawings, each with a pair changed, held against the definitions.
pub fn damaged_tables(alloc: Global, seed: u64, turns: usize) -> anyhow::Result<Score> {
    let mut random = Random::new(seed);
    let mut score = Score::default();
    let mut grid = WordGrid::new();
    for _turn in 0..turns {
        damage(alloc, &mut random, &mut grid)?;
        score.note(confirms(alloc, &grid)?);
    }
    Ok(score)
}

// The pairs of the numbers below a count, the lower number first.
fn pairs_below(alloc: Global, count: usize) -> Result<Vec<(usize, usize)>, AllocError> {
    (0..count).tuple_combinations(alloc)?.try_collect(alloc)
}

/// Every table of so many baselines, at most six, held against the definitions.
pub fn all_tables(alloc: Global, count: usize) -> anyhow::Result<Score> {
    let mut score = Score::default();
    let mut grid = WordGrid::new();
    for sharing in pairs_below(alloc, count)?.into_iter().powerset(alloc)? {
        let sharing = sharing?;
        fill(&mut grid, count, |i, j| sharing.contains(&(j, i)))?;
        score.note(confirms(alloc, &grid)?);
    }
    Ok(score)
}

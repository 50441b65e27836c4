//! A ledger that keeps a row of bits for each baseline.

ghost use Rattle.std.specs.Prelude.{◌≡◌, ℕ, ◌≤◌, Bool, ◌&&◌, length, if◌then◌else◌, nat_eq, nat_lt};
ghost use Rattle.std.proofs.Common.{arith};
ghost use Rattle.bitset.specs.Sets.{has};
ghost use Rattle.evidence.specs.Pairs.{pairs};
ghost use Rattle.evidence.specs.Table.{Sound};
ghost use Rattle.ledgers.specs.Grid.{grid};

use super::count::Count;
use bitset::BaselineSet;
use evidence::{Evidence, Ledger, Refusal, ask_pair};

// How many pairs 64 baselines make.
const GRID_MOST: u16 = 2016;

/// For each baseline the set of those that share with it. There is room for every pair.
#[derive(Drop)]
pub struct WordGrid {
    rows: [BaselineSet; 64],
    baselines: Count,
    sharing: u16,
    ghost long: { length rows ≡ 64 },
    ghost sound: { Sound (grid baselines.count rows) },
    ghost counted: { sharing ≡ pairs (grid baselines.count rows) },
}

impl WordGrid {
    /// A grid with no baselines.
    pub fn new() -> Self
        ensures { (grid result.baselines.count result.rows).count ≡ 0 }
    {
        WordGrid {
            rows: [BaselineSet::empty(); 64],
            baselines: Count { count: 0 },
            sharing: 0,
        }
    }
}

impl Evidence for WordGrid {
    ghost meaning = { λ g. grid g.baselines.count g.rows };

    ghost sound = { λ g. g.sound };

    fn count(&self) -> usize {
        self.baselines.count
    }

    fn shares(&self, i: usize, j: usize) -> bool {
        i < 64 && self.rows[i].has(j)
    }
}

// The row with j in it or not, as wanted.
fn put_in(row: BaselineSet, j: usize, on: bool) -> BaselineSet
    ensures { (k : ℕ) → has result.bits k ≡ (if nat_eq k j && nat_lt j 64 then on else has row.bits k) }
{
    if on { row.with(j) } else { row.without(j) }
}

impl Ledger for WordGrid {
    ghost most = { λ _. 2016 };

    ghost bounds = { λ _. (omega arith, omega arith) };

    fn most(&self) -> u16 {
        GRID_MOST
    }

    fn clear(&mut self) {
        *self = WordGrid::new();
    }

    fn grow(&mut self) -> Result<usize, Refusal> {
        self.baselines.grow()
    }

    fn set(&mut self, i: usize, j: usize, on: bool) -> Result<bool, Refusal> {
        ask_pair(self.baselines.count, i, j)?;
        if self.rows[i].has(j) == on {
            return Ok(false);
        }
        if on && self.sharing >= GRID_MOST {
            return Err(Refusal::ManyPairs);
        }
        self.rows[i] = put_in(self.rows[i], j, on);
        self.rows[j] = put_in(self.rows[j], i, on);
        self.sharing = if on {
            self.sharing + 1
        } else {
            self.sharing - 1
        };
        Ok(true)
    }
}

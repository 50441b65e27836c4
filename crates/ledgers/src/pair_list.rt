//! A ledger that keeps a list of the pairs that share.

ghost use Rattle.std.specs.Prelude.{◌≡◌, ℕ, ◌≤◌, length, count_by, position};
ghost use Rattle.std.proofs.Common.{arith};
ghost use Rattle.evidence.specs.Pairs.{pairs};
ghost use Rattle.evidence.specs.Table.{Sound};
ghost use Rattle.ledgers.specs.Listing.{hit, listing};

use super::count::Count;
use arrayvec::ArrayVec;
use evidence::{Evidence, Ledger, Refusal, ask_pair};

// How many pairs there is room for.
const LIST_MOST: usize = 512;

/// The pairs that share, each once, in no order. There is room for 512.
#[derive(Drop)]
pub struct PairList {
    entries: ArrayVec<(u8, u8), LIST_MOST>,
    baselines: Count,
    ghost sound: { Sound (listing baselines.count entries.items) },
    ghost once: { (i j : ℕ) → count_by (hit i j) entries.items ≤ 1 },
    ghost counted: { length entries.items ≡ pairs (listing baselines.count entries.items) },
}

impl PairList {
    /// A list with no baselines.
    pub fn new() -> Self
        ensures { (listing result.baselines.count result.entries.items).count ≡ 0 }
    {
        PairList {
            entries: ArrayVec::new(),
            baselines: Count { count: 0 },
        }
    }

    // The place of a pair, if it is listed.
    fn find(&self, i: usize, j: usize) -> Option<usize>
        ensures { result ≡ position (hit i j) self.now.entries.items }
    {
        self.entries.iter().position(|&(p, q)| {
            let entry = (usize::from(p), usize::from(q));
            entry == (i, j) || entry == (j, i)
        })
    }
}

impl Evidence for PairList {
    ghost meaning = { λ x. listing x.baselines.count x.entries.items };

    ghost sound = { λ x. x.sound };

    fn count(&self) -> usize {
        self.baselines.count
    }

    fn shares(&self, i: usize, j: usize) -> bool {
        self.find(i, j).is_some()
    }
}

impl Ledger for PairList {
    ghost most = { λ _. 512 };

    ghost bounds = { λ _. (omega arith, omega arith) };

    fn most(&self) -> u16 {
        self.entries.capacity() as u16
    }

    #[tactic(auto, using(crate::proofs::Listed::kept_none))]
    fn clear(&mut self) {
        self.entries.clear();
        self.baselines = Count { count: 0 };
    }

    fn grow(&mut self) -> Result<usize, Refusal> {
        self.baselines.grow()
    }

    fn set(&mut self, i: usize, j: usize, on: bool) -> Result<bool, Refusal> {
        ask_pair(self.baselines.count, i, j)?;
        match (self.find(i, j), on) {
            (Some(place), false) => {
                self.entries.swap_remove(place);
            }
            (None, true) if self.entries.is_full() => return Err(Refusal::ManyPairs),
            (None, true) => self.entries.push((i as u8, j as u8)),
            _ => return Ok(false),
        }
        Ok(true)
    }
}

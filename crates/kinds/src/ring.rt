//! A ring of baselines, each of which shares with the one before it and the one after it.

ghost use Rattle.std.specs.Prelude.{◌≡◌};
ghost use Rattle.kinds.specs.Ring.{ring, ring_sound};

use evidence::{Evidence, ask_pair};

/// So many baselines in a ring, at most 64.
#[derive(Drop)]
pub struct Ring {
    pub size: usize,
}

impl Evidence for Ring {
    ghost meaning = { λ r. ring r.size };

    ghost sound = { λ r. ring_sound r.size };

    fn count(&self) -> usize {
        self.size.min(64)
    }

    fn shares(&self, i: usize, j: usize) -> bool {
        let n = self.count();
        ask_pair(n, i, j).is_ok() && ((i + 1) % n == j || (j + 1) % n == i)
    }
}

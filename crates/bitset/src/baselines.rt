//! The members of a set, one after the other.

ghost use Rattle.std.specs.Prelude.{◌≡◌, ◌^◌, ◌<◌};
ghost use Rattle.std.specs.Iterator.{YieldsFirst, item_count};
ghost use Rattle.bitset.specs.Sets.{members};

use super::set::BaselineSet;

/// The members of a set that were not given yet, the lowest first.
#[derive(Drop)]
pub struct Baselines {
    left: BaselineSet,
    ghost small: { left.bits < 2 ^ 64 },
}

impl Iterator for Baselines {
    type Item = usize;

    ghost next_gives = { YieldsFirst (λ s. members s.left.bits) };

    ghost remaining = { item_count (λ s. members s.left.bits) };

    fn next(&mut self) -> Option<usize> {
        let first = self.left.lowest()?;
        self.left = self.left.without(first);
        Some(first)
    }
}

impl IntoIterator for BaselineSet {
    type Item = usize;

    type IntoIter = Baselines;

    ghost into_iter_gives = { λ set it. it.left ≡ set };

    fn into_iter(self) -> Baselines {
        Baselines { left: self }
    }
}

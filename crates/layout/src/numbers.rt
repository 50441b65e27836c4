//! The numbers that imagers were given.

ghost use Rattle.std.specs.Prelude.{◌≡◌, length};

use bitset::BaselineSet;
use theory::Entry;

// The entries as far as the imagers have numbers, the baselines that have one, and the next number.
#[derive(Drop)]
pub struct Numbers {
    pub entries: [Entry; 64],
    pub begun: BaselineSet,
    pub next: u8,
    ghost long: { length entries ≡ 64 },
}

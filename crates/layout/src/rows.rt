//! The rows of a table: for each baseline the set of those that share with it.

ghost use Rattle.std.specs.Prelude.{◌≡◌, ℕ, ◌^◌, ◌<◌, length, slice_index_or};
ghost use Rattle.evidence.specs.Table.{Sound};
ghost use Rattle.layout.specs.Tables.{none, table_of};

use bitset::BaselineSet;

// The rows of 64 baselines; those from the count on are empty.
#[derive(Drop)]
pub struct Rows {
    pub count: usize,
    pub rows: [BaselineSet; 64],
    ghost long: { length rows ≡ 64 },
    ghost small: { (i : ℕ) → (slice_index_or rows i none).bits < 2 ^ 64 },
    ghost sound: { Sound (table_of count rows) },
}

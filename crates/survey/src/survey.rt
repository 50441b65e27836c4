//! A survey.

ghost use Rattle.std.specs.Prelude.{◌≡◌, ℕ, ◌<◌, slice_index};
ghost use Rattle.arrayvec.specs.ArrayVec.{array_vec_len};

use super::state::State;
use arrayvec::ArrayVec;
use evidence::Ledger;

/// What a resolved survey has: so many imagers, and so many doubtful baselines.
#[derive(Clone, Copy, PartialEq, Eq, Debug)]
pub struct Resolution {
    pub imagers: usize,
    pub doubtful: usize,
}

/// A survey that keeps its sharing in a ledger of any kind.
#[derive(Drop)]
pub struct Survey<L: Ledger> {
    pub(crate) number: u16,
    pub(crate) ledger: L,
    pub(crate) spans: ArrayVec<u16, 64>,
    pub(crate) state: State,
    pub(crate) begun: u16,
    // Each baseline has a span.
    ghost spanned: { (L.Evidence.meaning ledger).count ≡ array_vec_len spans },
    // How large the numbers are that its files tell.
    ghost small: { number < 65536 },
    ghost lengths: { (i : ℕ) → slice_index spans.items i < 65536 },
}

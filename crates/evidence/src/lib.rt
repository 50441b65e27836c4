//! Evidence of which baselines share an imager: what it means, its kinds, and the ledgers' trait.

#![tactic(auto)]

// The meaning of evidence, and of evidence that can be written.
mod evidence;
mod ledger;

// Refusals, and the questions of a pair.
mod pair;
mod refusal;

// Kinds of evidence that are only read.
mod beside;
mod drawing;
mod square;

pub use beside::Beside;
pub use drawing::Drawing;
pub use evidence::Evidence;
pub use ledger::Ledger;
pub use pair::ask_pair;
pub use refusal::Refusal;
pub use square::Square;

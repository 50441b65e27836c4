//! Sets of baselines, each in one machine word. Nobody outside this crate shifts bits.

#![tactic(auto)]

mod baselines;
mod set;

pub use baselines::Baselines;
pub use set::BaselineSet;

//! A survey over any ledger: what is enlisted and marked in it, how it is resolved, and the issues that it gives out.

#![tactic(auto)]

// The papers of an issue.
mod papers;
mod slip;

// A survey, and its calls.
mod asked;
mod issue;
mod marks;
mod resolve;
mod stage;
mod start;
mod state;
mod survey;

pub use papers::Paper;
pub use slip::{Closing, ForProfile, ForTable, Opening, Slip};
pub use stage::Stage;
pub use survey::{Resolution, Survey};

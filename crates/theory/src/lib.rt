//! What a layout is, and why the search for one is right. The definitions are in specs/, the proofs in proofs/.

#![tactic(auto)]

mod record;
mod theorems;

pub use record::{Entry, Record};
pub use theorems::{answer_fixed, drawn_back, layout_by_clusters, rigs_worked, search_right};

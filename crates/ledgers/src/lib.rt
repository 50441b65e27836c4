//! The ledgers: a grid of words, and a list of pairs.

#![tactic(auto)]

mod count;
mod pair_list;
mod word_grid;

pub use pair_list::PairList;
pub use word_grid::WordGrid;

//! The law of surveys applied: what a ledger of any kind answers to one list of calls, and the bytes of the two files.

#![tactic(auto)]

// What the calls answer.
mod answers;

// The calls, a part of the list to each function, and the whole list.
mod asking;
mod issuing;
mod marking;
mod whole;

pub use answers::{Answers, Lengths, Marks, Tellings};
pub use whole::two_baselines;

#[cfg(test)]
mod tests;

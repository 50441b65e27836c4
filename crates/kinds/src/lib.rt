//! A kind of evidence written outside the crate `evidence`, and the tests of the kinds and the ledgers.

#![tactic(auto)]

mod ring;

pub use ring::Ring;

#[cfg(test)]
mod tests;

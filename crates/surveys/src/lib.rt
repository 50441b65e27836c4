//! Surveys put to the test over both ledgers: the worked rigs, marks, and issues with their papers.

#![tactic(auto)]

// Papers in tests.
#[cfg(test)]
mod holding;

// The tests.
#[cfg(test)]
mod issues;
#[cfg(test)]
mod marks;
#[cfg(test)]
mod rigs;
#[cfg(test)]
mod strangers;

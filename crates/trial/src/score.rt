//! What trials come to.

use std::fmt;

/// How many trials came out right, and how many there were.
#[derive(Clone, Copy, Default)]
pub struct Score {
    right: usize,
    trials: usize,
}

impl Score {
    /// One trial more.
    pub fn note(&mut self, right: bool) {
        self.right = self.right.saturating_add(usize::from(right));
        self.trials = self.trials.saturating_add(1);
    }
}

impl fmt::Display for Score {
    fn fmt<W: fmt::Write>(&self, f: &mut fmt::Formatter<W>) -> fmt::Result {
        write!(f, "{} of {}", self.right, self.trials)
    }
}

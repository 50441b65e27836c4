//! Either paper of an issue.

use super::slip::{Closing, Opening};

/// Either paper, to be withdrawn.
pub enum Paper {
    Opens(Opening),
    Closes(Closing),
}

impl Paper {
    // Spends the paper.
    pub(crate) fn spend(self) {
        match self {
            Paper::Opens(paper) => paper.spend(),
            Paper::Closes(paper) => paper.spend(),
        }
    }
}

//! The two papers of an issue: slips that differ in what they are for. Only this module makes one or takes one apart.

ghost use Rattle.std.specs.Prelude.{◌≡◌, true, false};
ghost use Rattle.survey.specs.Slips.{slip};

use std::marker::PhantomData;

/// What an opening paper is for: the profile of the issue.
pub struct ForProfile;

/// What a closing paper is for: the table of the issue.
pub struct ForTable;

/// A paper of an issue, for one of its files. It is spent by that file or by a withdrawal, and is never let go before.
pub struct Slip<For> {
    survey: u16,
    issue: u16,
    spent: bool,
    file: PhantomData<For>,
}

/// The paper that opens an issue. It is spent by the profile or by a withdrawal.
pub type Opening = Slip<ForProfile>;

/// The paper that closes an issue. It is spent by the table or by a withdrawal.
pub type Closing = Slip<ForTable>;

impl<For> Drop for Slip<For> {
    fn drop(self)
        requires { self.spent ≡ true }
    {
        let Slip {
            survey: _,
            issue: _,
            spent: _,
            file: _,
        } = self;
    }
}

impl<For> Slip<For> {
    // A paper of this issue.
    pub(crate) fn new(survey: u16, issue: u16) -> Self
        ensures { result ≡ slip survey issue }
    {
        Slip {
            survey,
            issue,
            spent: false,
            file: PhantomData,
        }
    }

    /// The number of the survey that gave the paper.
    pub fn survey(&self) -> u16
        ensures { result ≡ self.now.survey }
    {
        self.survey
    }

    /// The number of the issue.
    pub fn issue(&self) -> u16
        ensures { result ≡ self.now.issue }
    {
        self.issue
    }

    // Spends the paper.
    pub(crate) fn spend(mut self) {
        self.spent = true;
    }
}

impl Opening {
    // Spends the paper, and gives the closing one of the same issue.
    pub(crate) fn exchange(self) -> Closing
        ensures { result ≡ slip self.survey self.issue }
    {
        let closing = Closing::new(self.survey, self.issue);
        self.spend();
        closing
    }
}

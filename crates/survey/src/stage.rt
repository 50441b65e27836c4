//! How far the open issue of a survey has come.

ghost use Rattle.std.specs.Prelude.{◌≡◌};
ghost use Rattle.survey.specs.Views.{stage_of};

use super::state::State;

/// How far the open issue has come.
#[derive(Clone, Copy)]
pub enum Stage {
    /// No issue is open.
    Idle,
    /// An issue is begun, and its profile is not written.
    Begun,
    /// The profile of the issue is written, and its table is not.
    Profiled,
}

impl State {
    // How far the open issue has come.
    pub(crate) fn stage(&self) -> Stage
        ensures { result ≡ stage_of self.now }
    {
        match self {
            State::Unresolved | State::Resolved(_) => Stage::Idle,
            State::Begun(_) => Stage::Begun,
            State::Profiled(_) => Stage::Profiled,
        }
    }
}

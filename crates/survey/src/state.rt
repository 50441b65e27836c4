//! The states of a survey.

ghost use Rattle.std.specs.Prelude.{◌≡◌, ℕ, ◌<◌};
ghost use Rattle.theory.specs.Record.{ends_of};

use theory::Record;

/// A layout: the imagers of each baseline, and how many imagers there are.
#[derive(Clone, Copy)]
pub struct Layout {
    pub(crate) record: Record,
    pub(crate) imagers: u8,
    // How large the numbers of imagers are.
    ghost few: { imagers < 256 },
    ghost chips: { (i : ℕ) → ((ends_of «record» i).0 < 256) × ((ends_of «record» i).1 < 256) },
}

/// How far a survey has come. It has a layout just while it is resolved, and an issue is open only of a layout.
#[derive(Clone, Copy)]
pub enum State {
    /// The survey is not resolved.
    Unresolved,
    /// It is resolved, and no issue is open.
    Resolved(Layout),
    /// An issue is begun, and its profile is not written.
    Begun(Layout),
    /// The profile of the issue is written, and its table is not.
    Profiled(Layout),
}

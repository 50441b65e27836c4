//! The record that a layout is told in.

ghost use Rattle.std.specs.Prelude.{◌≡◌, replicate};
ghost use Rattle.theory.specs.Record.{blank};

/// What is told of one baseline: its two imagers, the lower number first, and whether it is doubtful.
#[derive(Clone, Copy, PartialEq, Eq, Default)]
pub struct Entry {
    pub lower: u8,
    pub higher: u8,
    pub doubtful: bool,
}

/// An entry for each baseline; those from the count on are zero.
#[derive(Clone, Copy)]
pub struct Record {
    pub entries: [Entry; 64],
}

impl Record {
    /// A record whose entries are all zero.
    pub fn new() -> Self
        ensures { result.entries ≡ replicate 64 blank }
    {
        Record {
            entries: [Entry::default(); 64],
        }
    }
}

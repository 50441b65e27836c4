//! What the files tell of a baseline.

ghost use Rattle.std.specs.Prelude.{◌≡◌, codes};
ghost use Rattle.files.specs.Baseline.{row_of, lens_at, is_at};
ghost use Rattle.files.specs.Field.{line_of};

use super::line::Field;
use theory::Entry;

// A baseline with its number.
#[derive(Clone, Copy)]
pub(crate) struct Baseline {
    pub(crate) number: u16,
    pub(crate) span: u16,
    pub(crate) entry: Entry,
}

impl Baseline {
    // The fields of its line in the table.
    pub(crate) fn row(&self) -> [Field; 5]
        ensures { line_of (codes "R") result ≡ row_of self.now }
    {
        [
            Field::Number(self.number),
            Field::Number(u16::from(self.entry.lower)),
            Field::Number(u16::from(self.entry.higher)),
            Field::Span(self.span),
            Field::mark(self.entry.doubtful),
        ]
    }

    // Whether an imager is at it. Both are compared, with no branch: this is asked of each imager and each baseline.
    pub(crate) fn has(&self, imager: u8) -> bool
        ensures { result ≡ is_at imager self.now }
    {
        (imager == self.entry.lower) | (imager == self.entry.higher)
    }

    // The fields of its line in the profile, for an imager.
    pub(crate) fn lens(&self, imager: u8) -> [Field; 3]
        ensures { line_of (codes "L") result ≡ lens_at imager self.now }
    {
        [
            Field::Number(u16::from(imager)),
            Field::Number(self.number),
            Field::Span(self.span),
        ]
    }
}

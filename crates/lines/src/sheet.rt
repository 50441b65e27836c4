//! The lines of a sheet.

ghost use Rattle.std.specs.Prelude.{◌≡◌, MatchOption};
ghost use Rattle.std.specs.Iterator.{YieldsFirstRef, item_count};
ghost use Rattle.files.specs.Reading.{Lacks, FirstAt};
ghost use Rattle.lines.specs.Sheet.{LineEnd, lines_of, lines_left};

/// Hands out the lines of a sheet, first to last, each with its byte 10; bytes after the last byte 10 are one more line.
#[derive(Clone, Copy)]
pub struct SheetLines<'a> {
    // What follows the last line that was handed out.
    rest: &'a [u8],
}

// The place of the first byte 10.
fn first_end(bytes: &[u8]) -> Option<usize>
    ensures { MatchOption result (Lacks 10 bytes.now) (FirstAt 10 bytes.now) }
{
    bytes.iter().position(|byte| *byte == b'\n')
}

/// The place after the line that begins at `at`: that after its byte 10, or the end of the bytes where no byte 10 follows.
pub fn line_end(bytes: &[u8], at: usize) -> usize
    ensures { LineEnd bytes.now at result }
{
    match first_end(&bytes[at.min(bytes.len())..]) {
        Some(before) => at + before + 1,
        None => bytes.len(),
    }
}

impl<'a> SheetLines<'a> {
    /// The lines of a sheet.
    pub fn of(sheet: &'a [u8]) -> Self
        ensures { lines_left result ≡ lines_of sheet.now }
    {
        SheetLines { rest: sheet }
    }
}

impl<'a> Iterator for SheetLines<'a> {
    type Item = &'a [u8];

    ghost next_gives = { YieldsFirstRef lines_left };

    ghost remaining = { item_count lines_left };

    fn next(&mut self) -> Option<&'a [u8]> {
        if self.rest.is_empty() {
            return None;
        }
        let (line, rest) = self.rest.split_at(line_end(self.rest, 0));
        self.rest = rest;
        Some(line)
    }
}

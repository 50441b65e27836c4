//! The rectification table.

ghost use Rattle.std.specs.Prelude.{◌≡◌, ◌+◌, ◌*◌, length};
ghost use Rattle.files.specs.Contents.{table_of};
ghost use Rattle.files.specs.Writing.{Written};

use super::contents::Contents;
use super::line::tell_line;
use super::sink::Sink;
use super::text::{Text, text_len, write};
use evidence::Refusal;

// The table's lines.
#[derive(Clone, Copy)]
struct Table<'a> {
    contents: &'a Contents<'a>,
}

impl Text for Table<'_> {
    ghost text = { λ table. table_of table.contents.now };

    ghost most = { λ _. 32 + 64 * 32 };

    fn tell<S: Sink>(&self, sink: &mut S) {
        tell_line(b"T", &self.contents.table_head(), sink);
        for i in 0..self.contents.baselines() {
            tell_line(b"R", &self.contents.baseline(i).row(), sink);
        }
    }
}

/// How many bytes the rectification table has.
pub fn table_len(contents: &Contents<'_>) -> usize
    ensures { result ≡ length (table_of contents.now) }
{
    text_len(&Table { contents })
}

/// Writes the rectification table from `at` on, and answers how many bytes it has. Refused with 19 where it would pass the
/// buffer's end; the buffer is then as it was.
pub fn write_table(contents: &Contents<'_>, out: &mut [u8], at: usize) -> Result<usize, Refusal>
    ensures { Written (table_of contents.now) out.old out.new at result }
{
    write(&Table { contents }, out, at)
}

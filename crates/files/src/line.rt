//! A line in bytes: a word, and the fields after it.

ghost use Rattle.std.specs.Prelude.{◌≡◌, ◌+◌, ◌*◌, ◌≤◌, ◌∷◌, length, take};
ghost use Rattle.files.specs.Field.{field_text, line_of};
ghost use Rattle.files.specs.Forms.{mark_text};
ghost use Rattle.files.specs.Writing.{Written};

use super::sink::Sink;
use super::text::{Text, write};
use evidence::Refusal;

/// A field after the word of a line.
#[derive(Clone, Copy)]
pub enum Field {
    /// A number, in digits.
    Number(u16),
    /// A span, in the form that spans have.
    Span(u16),
    /// One byte.
    Letter(u8),
}

impl Field {
    /// The field that marks a baseline: `D` if it is doubtful, and `C` if it is certain.
    pub fn mark(doubtful: bool) -> Field
        ensures { field_text result ≡ mark_text doubtful }
    {
        Field::Letter(if doubtful { b'D' } else { b'C' })
    }

    // Tells a comma and the field.
    fn tell_next<S: Sink>(&self, sink: &mut S)
        requires { S.HasRoom sink.old (length (44 ∷ field_text self.now)) }
        ensures told { S.Took sink.old (44 ∷ field_text self.now) sink.new }
        ensures few { length (44 ∷ field_text self.now) ≤ 6 }
    {
        sink.byte(b',');
        self.tell(sink);
    }
}

impl Text for Field {
    ghost text = { field_text };

    ghost most = { λ _. 5 };

    fn tell<S: Sink>(&self, sink: &mut S) {
        match *self {
            Field::Number(n) | Field::Span(n) => n.tell(sink),
            Field::Letter(byte) => sink.byte(byte),
        }
    }
}

// Tells a line: its word, then each field after a comma, then byte 10.
pub(crate) fn tell_line<S: Sink>(word: &[u8], fields: &[Field], sink: &mut S)
    requires { S.HasRoom sink.old (length (line_of word.now fields.now)) }
    ensures told { S.Took sink.old (line_of word.now fields.now) sink.new }
    ensures few { length (line_of word.now fields.now) ≤ length word.now + 1 + 6 * length fields.now }
{
    sink.bytes(word);
    for field in fields {
        field.tell_next(sink);
    }
    sink.byte(b'\n');
}

// A line of a word and fields.
#[derive(Clone, Copy)]
struct Line<'a> {
    word: &'a [u8],
    fields: &'a [Field],
}

impl Text for Line<'_> {
    ghost text = { λ line. line_of line.word.now line.fields.now };

    ghost most = { λ line. length line.word.now + 1 + 6 * length line.fields.now };

    fn tell<S: Sink>(&self, sink: &mut S) {
        tell_line(self.word, self.fields, sink);
    }
}

// How many fields of a line are written at most.
const MOST_FIELDS: usize = 16;

/// Writes a line from `at` on, and answers how many bytes it has: the word, then each field after a comma, then byte 10.
/// Fields past the 16th are not read, so the line has at most 97 bytes more than its word. Refused with 19 where the line
/// would pass the buffer's end; the buffer is then as it was.
pub fn write_line(
    word: &[u8],
    fields: &[Field],
    out: &mut [u8],
    at: usize,
) -> Result<usize, Refusal>
    ensures written { Written (line_of word.now (take 16 fields.now)) out.old out.new at result }
    ensures short { length (line_of word.now (take 16 fields.now)) ≤ length word.now + 97 }
{
    let fields = &fields[..MOST_FIELDS.min(fields.len())];
    write(&Line { word, fields }, out, at)
}

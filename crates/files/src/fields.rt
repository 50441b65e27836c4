//! The fields of a line, one after another.

ghost use Rattle.std.specs.Prelude.{◌≡◌, [], ◌∷◌, ◌++◌, length, drop, MatchOption, slice_index_or};
ghost use Rattle.std.specs.Iterator.{YieldsFirstRef, item_count};
ghost use Rattle.files.specs.Fields.{left_of};
ghost use Rattle.files.specs.Reading.{NotEnded, NotNumber, Spells, Lacks, FirstAt, fields};

use super::number::read_number;

/// Hands out the fields of a line, first to last: what lies between its commas. An empty line has one empty field.
#[derive(Clone, Copy)]
pub struct Fields<'a> {
    // What follows the comma after the last field that was handed out.
    rest: Option<&'a [u8]>,
}

/// A line without the byte 10 that ends it; none where the bytes do not end in it.
pub fn without_end(bytes: &[u8]) -> Option<&[u8]>
    ensures { MatchOption result (NotEnded bytes.now) (λ s. bytes.now ≡ s.now ++ (10 ∷ [])) }
{
    bytes.strip_suffix(b"\n")
}

// The place of the first comma.
fn comma(line: &[u8]) -> Option<usize>
    ensures { MatchOption result (Lacks 44 line.now) (FirstAt 44 line.now) }
{
    line.iter().position(|byte| *byte == b',')
}

impl<'a> Fields<'a> {
    /// The fields of a line, its last byte 10 taken off; another byte 10 is an ordinary byte.
    pub fn of(line: &'a [u8]) -> Self
        ensures { left_of result ≡ fields line.now }
    {
        Fields { rest: Some(line) }
    }

    /// The number in the next field; none where that field is no number, or where all were handed out.
    pub fn next_number(&mut self) -> Option<u16>
        ensures number { MatchOption result (NotNumber (slice_index_or (left_of self.old) 0 [])) (λ v. Spells (slice_index_or (left_of self.old) 0 []) v) }
        ensures left { left_of self.new ≡ drop 1 (left_of self.old) }
    {
        read_number(self.next()?)
    }
}

impl<'a> Iterator for Fields<'a> {
    type Item = &'a [u8];

    ghost next_gives = { YieldsFirstRef left_of };

    ghost remaining = { item_count left_of };

    fn next(&mut self) -> Option<&'a [u8]> {
        let line = self.rest?;
        match comma(line) {
            Some(i) => {
                self.rest = Some(&line[i + 1..]);
                Some(&line[..i])
            }
            None => {
                self.rest = None;
                Some(line)
            }
        }
    }
}

/// How many fields a line has, its last byte 10 taken off: one more than its commas.
pub fn field_count(line: &[u8]) -> usize
    ensures { result ≡ length (fields line.now) }
{
    line.iter().filter(|byte| **byte == b',').count() + 1
}

//! A line of a word and two numbers.

ghost use Rattle.files.specs.Pair.{PairRead};
ghost use Rattle.files.specs.Reading.{fields};

use super::fields::Fields;

/// The first wrong field of a line. The word has place 0.
#[derive(Clone, Copy, PartialEq, Eq, Debug)]
pub struct BadField {
    pub place: usize,
}

/// The two numbers of a line `word,i,j`, its last byte 10 taken off. Where a field is wrong, its place is told: 1 or 2 where
/// that field is missing or no number, and 3 where another field follows. Any word will do.
pub fn read_pair(line: &[u8]) -> Result<(u16, u16), BadField>
    ensures { PairRead (fields line.now) result }
{
    let mut rest = Fields::of(line);
    let _word = rest.next();
    let Some(i) = rest.next_number() else {
        return Err(BadField { place: 1 });
    };
    let Some(j) = rest.next_number() else {
        return Err(BadField { place: 2 });
    };
    if rest.next().is_some() {
        return Err(BadField { place: 3 });
    }
    Ok((i, j))
}

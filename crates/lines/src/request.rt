//! What a line asks for.

ghost use Rattle.std.specs.Prelude.{◌≡◌, ◌+◌, [], length, MatchResult, slice_index_or};
ghost use Rattle.files.specs.Reading.{fields};
ghost use Rattle.lines.specs.Words.{NoWord, word_text, numbers_after};
ghost use Rattle.lines.specs.declared.fault.TextFault.TheVariants.{UnknownWord};
ghost use Rattle.lines.specs.Requests.{Reads, SpanRead};

use super::fault::TextFault;
use super::word::Word;
use files::{BadField, Fields, field_count, read_pair, without_end};

/// What a line asks for: a word of the sheet, and its numbers.
#[derive(Clone, Copy, PartialEq, Eq, Debug)]
pub enum Request {
    /// `enlist,span`
    Enlist(u16),
    /// `share,i,j`
    Share(u16, u16),
    /// `part,i,j`
    Part(u16, u16),
    /// `resolve`
    Resolve,
    /// `issue`
    Issue,
}

/// What a line asks for. Refused with 2 where the bytes do not end in byte 10, else with 3 where the first field is no word,
/// else with 4 where the fields are not as many as the word needs, else with 5 and the place of the first field that is no
/// number.
pub fn read_request(bytes: &[u8]) -> Result<Request, TextFault>
    ensures { Reads bytes.now result }
{
    let text = without_end(bytes).ok_or(TextFault::NoEnd)?;
    let word = first_word(text)?;
    if field_count(text) != 1 + word.numbers() {
        return Err(TextFault::FieldCount);
    }
    match word {
        Word::Enlist => Ok(Request::Enlist(read_span(text)?)),
        Word::Share => {
            let (i, j) = read_pair(text)?;
            Ok(Request::Share(i, j))
        }
        Word::Part => {
            let (i, j) = read_pair(text)?;
            Ok(Request::Part(i, j))
        }
        Word::Resolve => Ok(Request::Resolve),
        Word::Issue => Ok(Request::Issue),
    }
}

// The word that a line begins with.
fn first_word(text: &[u8]) -> Result<Word, TextFault>
    ensures { MatchResult result (λ w. slice_index_or (fields text.now) 0 [] ≡ word_text w) (λ fault. (fault ≡ UnknownWord) × NoWord (slice_index_or (fields text.now) 0 [])) }
{
    let first = Fields::of(text).next().unwrap_or_default();
    Word::try_from(first)
}

// The span of a line `enlist,span`.
fn read_span(text: &[u8]) -> Result<u16, BadField>
    ensures { SpanRead (fields text.now) result }
{
    let mut rest = Fields::of(text);
    let _word = rest.next();
    let Some(span) = rest.next_number() else {
        return Err(BadField { place: 1 });
    };
    Ok(span)
}

//! The words of the sheet.

ghost use Rattle.std.specs.Prelude.{◌≡◌, MatchResult};
ghost use Rattle.lines.specs.Words.{NoWord, word_text, numbers_after};
ghost use Rattle.lines.specs.declared.fault.TextFault.TheVariants.{UnknownWord};

use super::fault::TextFault;

/// A word of the sheet.
#[derive(Clone, Copy)]
pub enum Word {
    Enlist,
    Share,
    Part,
    Resolve,
    Issue,
}

impl TryFrom<&[u8]> for Word {
    type Error = TextFault;

    ghost try_from_gives = { λ bytes r. MatchResult r (λ w. bytes.now ≡ word_text w) (λ fault. (fault ≡ UnknownWord) × NoWord bytes.now) };

    fn try_from(bytes: &[u8]) -> Result<Word, TextFault> {
        match bytes {
            b"enlist" => Ok(Word::Enlist),
            b"share" => Ok(Word::Share),
            b"part" => Ok(Word::Part),
            b"resolve" => Ok(Word::Resolve),
            b"issue" => Ok(Word::Issue),
            _ => Err(TextFault::UnknownWord),
        }
    }
}

impl Word {
    // How many numbers follow the word.
    pub fn numbers(self) -> usize
        ensures { result ≡ numbers_after self }
    {
        match self {
            Word::Enlist => 1,
            Word::Share | Word::Part => 2,
            Word::Resolve | Word::Issue => 0,
        }
    }
}

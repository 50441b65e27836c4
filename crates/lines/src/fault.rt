//! Why a line is refused: its text, or the survey.

ghost use Rattle.std.specs.Prelude.{◌≡◌};
ghost use Rattle.lines.specs.Faults.{number_of, detail_of, layer_of};
ghost use Rattle.lines.specs.declared.fault.Fault.TheVariants.{Text, Survey};
ghost use Rattle.lines.specs.declared.fault.TextFault.TheVariants.{NotNumber};

use evidence::Refusal;
use files::BadField;

/// Why the text of a line is refused. docs/refusals.md lists the numbers.
#[derive(Clone, Copy, PartialEq, Eq, Debug)]
pub enum TextFault {
    /// 1: the reply buffer has fewer than 4,096 bytes.
    ShortReply,
    /// 2: the line does not end in byte 10.
    NoEnd,
    /// 3: the first field is no word of the sheet.
    UnknownWord,
    /// 4: the fields are not as many as the word needs.
    FieldCount,
    /// 5: the field at this place, the first such, is no number; the word has place 0.
    NotNumber(usize),
}

/// Why a line is refused, with the layer that refuses it: the text (T), or the survey (S), whose refusal is kept whole.
#[derive(Clone, Copy, PartialEq, Eq, Debug)]
pub enum Fault {
    Text(TextFault),
    Survey(Refusal),
}

impl From<BadField> for TextFault {
    ghost from_gives = { λ bad r. r ≡ NotNumber bad.place };

    fn from(bad: BadField) -> TextFault {
        TextFault::NotNumber(bad.place)
    }
}

impl From<TextFault> for Fault {
    ghost from_gives = { λ fault r. r ≡ Text fault };

    fn from(fault: TextFault) -> Fault {
        Fault::Text(fault)
    }
}

impl From<Refusal> for Fault {
    ghost from_gives = { λ refusal r. r ≡ Survey refusal };

    fn from(refusal: Refusal) -> Fault {
        Fault::Survey(refusal)
    }
}

impl Fault {
    /// The number of the refusal.
    pub fn number(self) -> u8
        ensures { result ≡ number_of self }
    {
        match self {
            Fault::Text(TextFault::ShortReply) => 1,
            Fault::Text(TextFault::NoEnd) => 2,
            Fault::Text(TextFault::UnknownWord) => 3,
            Fault::Text(TextFault::FieldCount) => 4,
            Fault::Text(TextFault::NotNumber(_)) => 5,
            Fault::Survey(refusal) => refusal.number(),
        }
    }

    /// The detail that the refusal names, or 0.
    pub fn detail(self) -> usize
        ensures { result ≡ detail_of self }
    {
        match self {
            Fault::Text(TextFault::NotNumber(place)) => place,
            Fault::Text(
                TextFault::ShortReply
                | TextFault::NoEnd
                | TextFault::UnknownWord
                | TextFault::FieldCount,
            ) => 0,
            Fault::Survey(refusal) => refusal.detail(),
        }
    }

    /// The letter of the layer that refuses: T, the text, or S, the survey.
    pub fn layer(self) -> u8
        ensures { result ≡ layer_of self }
    {
        match self {
            Fault::Text(_) => b'T',
            Fault::Survey(_) => b'S',
        }
    }
}

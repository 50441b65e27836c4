//! A number in bytes: its decimal digits, with no leading zero.

ghost use Rattle.std.specs.Prelude.{◌≡◌, ◌-◌, ◌<◌, ◌≤◌, length, Some, decimal, IsTrue, ◌↔◌, ◌⊎◌, MatchOption, slice_index};
ghost use Rattle.std.specs.Int.{IsInRange};
ghost use Rattle.files.specs.Reading.{Spells, NotNumber};
ghost use Rattle.files.specs.Writing.{Written};

use super::sink::Sink;
use super::text::{Text, write};
use evidence::Refusal;

impl Text for u16 {
    ghost text = { decimal };

    ghost most = { λ _. 5 };

    fn tell<S: Sink>(&self, sink: &mut S) {
        sink.number(*self);
    }
}

/// How many bytes a number has, from 1 to 5.
pub fn number_len(n: u16) -> usize
    ensures same { result ≡ length (decimal n) }
    ensures few { result ≤ 5 }
{
    match n {
        0..=9 => 1,
        10..=99 => 2,
        100..=999 => 3,
        1000..=9999 => 4,
        _ => 5,
    }
}

/// Writes a number from `at` on, and answers how many bytes it has. Refused with 19 where it would pass the buffer's end;
/// the buffer is then as it was.
pub fn write_number(n: u16, out: &mut [u8], at: usize) -> Result<usize, Refusal>
    ensures { Written (decimal n) out.old out.new at result }
{
    write(&n, out, at)
}

// The largest number, and how many digits it has.
const MOST: u32 = 65535;

const MOST_DIGITS: usize = 5;

// The value of a digit.
fn digit(byte: u8) -> Option<u32>
    ensures { MatchOption result (IsInRange 48 57 byte → ⊥) (λ d. IsInRange 48 57 byte × (d ≡ byte - 48)) }
{
    match byte {
        b'0'..=b'9' => Some(u32::from(byte - b'0')),
        _ => None,
    }
}

// Whether no number begins so: with nothing at all, or with a zero that something follows.
fn begins_wrong(bytes: &[u8]) -> bool
    ensures { IsTrue result ↔ ((length bytes.now ≡ 0) ⊎ ((slice_index bytes.now 0 ≡ 48) × (1 < length bytes.now))) }
{
    matches!(bytes, [] | [b'0', _, ..])
}

/// The number whose digits the bytes are, with no leading zero and at most 65,535; none where they are no such number's.
pub fn read_number(bytes: &[u8]) -> Option<u16>
    ensures { MatchOption result (NotNumber bytes.now) (λ v. Spells bytes.now v) }
{
    if begins_wrong(bytes) || bytes.len() > MOST_DIGITS {
        return None;
    }
    let mut n: u32 = 0;
    for byte in bytes {
        n = n * 10 + digit(*byte)?;
    }
    if n > MOST {
        return None;
    }
    Some(n as u16)
}

/// Writes a number into a small buffer and reads it out of that: it is the same number.
pub fn reads_back(n: u16) -> Option<u16>
    ensures { result ≡ Some n }
{
    let mut bytes = [0; MOST_DIGITS];
    let len = write_number(n, &mut bytes, 0).ok()?;
    read_number(&bytes[..len])
}

//! A sink that writes.

ghost use Rattle.std.specs.Prelude.{◌+◌, ◌<◌, ◌≤◌, [], ◌∷◌, length, decimal};
ghost use Rattle.files.specs.Pen.{pen_room, Penned, pen_laws};
ghost use Rattle.files.specs.Writing.{Puts};

use super::sink::Sink;

// Writes into a buffer from a place on, and moves the place.
#[derive(Drop)]
pub(crate) struct Pen<'a> {
    pub(crate) out: &'a mut [u8],
    pub(crate) at: usize,
}

// Writes a digit, and answers the place after it.
fn put_digit(out: &mut [u8], at: usize, digit: u8) -> usize
    requires { at < length out.old }
    ensures { Puts out.old out.new at result (digit ∷ []) }
{
    out[at] = digit;
    at + 1
}

// Writes a number, and answers the place after it.
fn put_number(out: &mut [u8], at: usize, n: u16) -> usize
    requires { at + length (decimal n) ≤ length out.old }
    ensures { Puts out.old out.new at result (decimal n) }
{
    let last = b'0' + (n % 10) as u8;
    if n < 10 {
        return put_digit(out, at, last);
    }
    let end = put_number(out, at, n / 10);
    put_digit(out, end, last)
}

impl Sink for Pen<'_> {
    ghost HasRoom = { pen_room };

    ghost Took = { Penned };

    ghost laws = { pen_laws };

    fn byte(&mut self, byte: u8) {
        self.out[self.at] = byte;
        self.at += 1;
    }

    fn bytes(&mut self, bytes: &[u8]) {
        let end = self.at + bytes.len();
        self.out[self.at..end].copy_from_slice(bytes);
        self.at = end;
    }

    fn number(&mut self, n: u16) {
        self.at = put_number(self.out, self.at, n);
    }
}

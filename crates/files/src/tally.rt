//! A sink that counts.

ghost use Rattle.files.specs.Tally.{tally_room, Tallied, tally_laws};

use super::number::number_len;
use super::sink::Sink;

// How many bytes were told, where a word holds as many.
#[derive(Clone, Copy, Default)]
pub(crate) struct Tally {
    pub(crate) bytes: usize,
}

impl Sink for Tally {
    ghost HasRoom = { tally_room };

    ghost Took = { Tallied };

    ghost laws = { tally_laws };

    fn byte(&mut self, _byte: u8) {
        self.bytes = self.bytes.wrapping_add(1);
    }

    fn bytes(&mut self, bytes: &[u8]) {
        self.bytes = self.bytes.wrapping_add(bytes.len());
    }

    fn number(&mut self, n: u16) {
        self.bytes = self.bytes.wrapping_add(number_len(n));
    }
}

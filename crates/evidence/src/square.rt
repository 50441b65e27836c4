//! A square of bytes, row by row, read as evidence.

ghost use Rattle.std.specs.Prelude.{◌≡◌, ◌<◌};
ghost use Rattle.evidence.specs.Square.{marked, side, squared, squared_sound};

use super::evidence::Evidence;
use super::pair::ask_pair;

/// A count n, and n rows of n bytes. Two different baselines share when the byte at their row and column and its mirror
/// byte are both 1. With n above 64, or with other than n × n bytes, there are no baselines.
#[derive(Drop)]
pub struct Square<'a> {
    pub n: u64,
    pub bytes: &'a [u8],
}

impl<'a> Evidence for Square<'a> {
    ghost meaning = { λ s. squared s.n s.bytes.now };

    ghost sound = { λ s. squared_sound s.n s.bytes.now };

    fn count(&self) -> usize {
        if self.n > 64 {
            return 0;
        }
        let n = self.n as usize;
        if self.bytes.len() == n * n { n } else { 0 }
    }

    fn shares(&self, i: usize, j: usize) -> bool {
        ask_pair(self.count(), i, j).is_ok() && self.is_marked(i, j) && self.is_marked(j, i)
    }
}

impl Square<'_> {
    // Whether the byte at a row and a column is 1.
    fn is_marked(&self, i: usize, j: usize) -> bool
        requires row { i < side self.now.n self.now.bytes.now }
        requires column { j < side self.now.n self.now.bytes.now }
        ensures { result ≡ marked self.now.n self.now.bytes.now i j }
    {
        self.bytes[i * self.count() + j] == 1
    }
}

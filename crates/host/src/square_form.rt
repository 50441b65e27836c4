//! The form of a square: its size, and what its bytes may be.

ghost use Rattle.std.specs.Prelude.{◌≡◌, ◌*◌, ◌<◌, ◌≤◌, Some, length, MatchResult};
ghost use Rattle.host.specs.Square.{right_at, wrong_column, wrong_in_row, first_wrong, form_refusal};

use evidence::Refusal;

/// A square of at most 64 rows that has all its bytes, row by row.
#[derive(Clone, Copy)]
pub struct FullSquare<'a> {
    pub n: usize,
    pub bytes: &'a [u8],
    pub ghost few: { n ≤ 64 },
    pub ghost full: { length bytes.now ≡ n * n },
}

impl<'a> FullSquare<'a> {
    /// The square of n rows, if n is at most 64 and there are n × n bytes.
    pub fn of(n: u64, bytes: &'a [u8]) -> Result<Self, Refusal>
        ensures { MatchResult result (λ s. (s.n ≡ n) × (s.bytes.now ≡ bytes.now)) (λ e. form_refusal n bytes.now ≡ Some e) }
    {
        if n > 64 {
            return Err(Refusal::ManyBaselines);
        }
        let n = n as usize;
        if bytes.len() != n * n {
            return Err(Refusal::SquareSize);
        }
        Ok(FullSquare { n, bytes })
    }
}

impl FullSquare<'_> {
    // Whether the byte at a row and a column is 0 or 1, zero where row equals column, and equal to its mirror.
    fn is_right(&self, i: usize, j: usize) -> bool
        requires row { i < self.now.n }
        requires column { j < self.now.n }
        ensures { result ≡ right_at self.now.n self.now.bytes.now i j }
    {
        let byte = self.bytes[i * self.n + j];
        let mirror = self.bytes[j * self.n + i];
        ((byte < 2) & ((i != j) | (byte == 0))) & (byte == mirror)
    }

    // The column of the first byte of a row that is not right.
    fn wrong_column(&self, i: usize) -> Option<usize>
        requires { i < self.now.n }
        ensures { result ≡ wrong_column self.now.n self.now.bytes.now i }
    {
        (0..self.n).find(|&j| !self.is_right(i, j))
    }

    // The place of the first byte of a row that is not right.
    fn wrong_in_row(&self, i: usize) -> Option<usize>
        requires { i < self.now.n }
        ensures { result ≡ wrong_in_row self.now.n self.now.bytes.now i }
    {
        let j = self.wrong_column(i)?;
        Some(i * self.n + j)
    }

    /// The place of the first byte that is not right.
    pub fn first_wrong(&self) -> Option<usize>
        ensures { result ≡ first_wrong self.now.n self.now.bytes.now }
    {
        (0..self.n).find_map(|i| self.wrong_in_row(i))
    }
}

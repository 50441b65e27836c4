//! Stars, told by the rows: the set of the baselines at one imager.

ghost use Rattle.std.specs.Prelude.{◌≡◌, ◌<◌};
ghost use Rattle.theory.specs.Stars.{row, far};
ghost use Rattle.theory.specs.Search.{handed};
ghost use Rattle.layout.specs.Told.{told};

use super::rows::Rows;
use bitset::BaselineSet;

impl Rows {
    // The baselines that share with i.
    pub fn row(&self, i: usize) -> BaselineSet
        requires { i < 64 }
        ensures { result.bits ≡ row (told self.now) i }
    {
        self.rows[i]
    }

    // The other star of v, given the one.
    pub fn far(&self, v: usize, near: BaselineSet) -> BaselineSet
        requires { v < 64 }
        ensures { result.bits ≡ far (told self.now) v near.bits }
    {
        self.row(v).minus(near).with(v)
    }

    // The star that p, whose near star is given, hands to v: the one of its two stars that v is in.
    pub fn handed(&self, p: usize, near: BaselineSet, v: usize) -> BaselineSet
        requires { p < 64 }
        ensures { result.bits ≡ handed (told self.now) p near.bits v }
    {
        if near.has(v) { near } else { self.far(p, near) }
    }
}

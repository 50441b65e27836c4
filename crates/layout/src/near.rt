//! Near stars: for each baseline the star of one of its imagers, from which the rows tell the other.

ghost use Rattle.std.specs.Prelude.{◌≡◌, ℕ, ◌<◌, if◌then◌else◌};
ghost use Rattle.bitset.specs.Sets.{has};
ghost use Rattle.theory.specs.Stars.{far};
ghost use Rattle.layout.specs.Tables.{bits_at};
ghost use Rattle.layout.specs.Told.{told};

use super::rows::Rows;
use bitset::BaselineSet;

// The near stars of baselines, and the rows of all.
#[derive(Drop)]
pub struct NearStars<'a> {
    pub rows: &'a Rows,
    pub near: [BaselineSet; 64],
}

impl<'a> NearStars<'a> {
    // The far star of v.
    pub fn far(&self, v: usize) -> BaselineSet
        requires { v < 64 }
        ensures { result.bits ≡ far (told self.now.rows.now) v (bits_at self.now.near v) }
    {
        self.rows.far(v, self.near[v])
    }

    // Takes over the near stars of a cluster.
    pub fn take_over(&mut self, cluster: BaselineSet, other: &NearStars<'a>)
        ensures rows { self.new.rows.now ≡ self.old.rows.now }
        ensures near { (v : ℕ) → bits_at self.new.near v ≡ (if has cluster.bits v then bits_at other.now.near v else bits_at self.old.near v) }
    {
        for v in cluster {
            self.near[v] = other.near[v];
        }
    }
}

//! The spread of a first star through a cluster.

ghost use Rattle.std.specs.Prelude.{◌≡◌, ℕ};
ghost use Rattle.theory.specs.Clusters.{Reach};
ghost use Rattle.theory.specs.Search.{Handed};
ghost use Rattle.layout.specs.Near.{KeptOutside};
ghost use Rattle.layout.specs.Tables.{bits_at};
ghost use Rattle.layout.specs.Told.{told};

use super::near::NearStars;
use super::walk::Walk;
use bitset::BaselineSet;

impl<'a> NearStars<'a> {
    // Gives each baseline of the cluster a near star: the root the first star, and each other the star that the
    // baseline before it on the walk hands it.
    pub fn spread(&mut self, walk: &Walk<'a>, first: BaselineSet)
        ensures rows { self.new.rows.now ≡ self.old.rows.now }
        ensures handed { (v : ℕ) → Reach (told walk.now.rows.now) walk.now.root v → Handed (told walk.now.rows.now) walk.now.root first.bits (bits_at self.new.near) v }
        ensures kept { KeptOutside (told walk.now.rows.now) walk.now.root self.old.near self.new.near }
    {
        self.near[walk.root] = first;
        for &(from, to) in walk.steps.as_slice() {
            let near = self.near[from];
            self.near[to] = walk.rows.handed(from, near, to);
        }
    }
}

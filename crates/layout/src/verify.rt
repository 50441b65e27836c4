//! The test of near stars.

ghost use Rattle.std.specs.Prelude.{◌≡◌, ℕ, ◌^◌, ◌<◌, true, ◌↔◌};
ghost use Rattle.bitset.specs.Sets.{has};
ghost use Rattle.theory.specs.Clusters.{Reach};
ghost use Rattle.theory.specs.Stars.{star, Stars};
ghost use Rattle.theory.specs.Search.{agreed};
ghost use Rattle.layout.specs.Quick.{star_of, quick, near_fits, quick_at};
ghost use Rattle.layout.specs.Tables.{bits_at};
ghost use Rattle.layout.specs.Told.{told};

use super::near::NearStars;
use super::walk::Walk;
use bitset::BaselineSet;

impl<'a> NearStars<'a> {
    // Whether a is one of the two stars of w.
    fn is_star_of(&self, a: BaselineSet, w: usize) -> bool
        requires { w < 64 }
        ensures { result ≡ star_of (told self.now.rows.now) (bits_at self.now.near) a.bits w }
    {
        let near = self.near[w];
        a == near || a == self.far(w)
    }

    // Whether each baseline of a has it as a star.
    fn is_agreed(&self, a: BaselineSet) -> bool
        ensures { result ≡ agreed (told self.now.rows.now) (bits_at self.now.near) a.bits }
    {
        a.into_iter().all(|w| self.is_star_of(a, w))
    }

    // Whether a, a star of v, holds. All its baselines are asked only once, where v is the lowest of them.
    fn star_holds(&self, v: usize, a: BaselineSet) -> bool
        requires { has a.bits v ≡ true }
        ensures { result ≡ quick (told self.now.rows.now) (bits_at self.now.near) v a.bits }
    {
        match a.lowest() {
            None => false,
            Some(u) if u == v => self.is_agreed(a),
            Some(u) => self.is_star_of(a, u),
        }
    }

    // Whether v is in its near star, which holds nothing but v and what shares with v.
    fn near_fits(&self, v: usize) -> bool
        requires { v < 64 }
        ensures { result ≡ near_fits (told self.now.rows.now) (bits_at self.now.near) v }
    {
        let star = self.near[v];
        star.has(v) & star.minus(self.rows.row(v).with(v)).is_empty()
    }

    // Whether the two stars of v hold.
    fn holds_at(&self, v: usize) -> bool
        requires { v < 64 }
        ensures { result ≡ quick_at (told self.now.rows.now) (bits_at self.now.near) v }
    {
        self.near_fits(v) && self.star_holds(v, self.near[v]) && self.star_holds(v, self.far(v))
    }

    // Whether the near stars of a cluster, with their far ones, are a system of stars.
    pub fn verify(&self, walk: &Walk<'a>) -> bool
        requires rows { walk.now.rows.now ≡ self.now.rows.now }
        requires small { (v : ℕ) → Reach (told walk.now.rows.now) walk.now.root v → bits_at self.now.near v < 2 ^ 64 }
        ensures { (result ≡ true) ↔ Stars (told walk.now.rows.now) (Reach (told walk.now.rows.now) walk.now.root) (star (told walk.now.rows.now) (bits_at self.now.near)) }
    {
        walk.met.into_iter().all(|v| self.holds_at(v))
    }
}

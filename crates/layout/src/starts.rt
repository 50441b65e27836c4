//! The starts of the search on a cluster: in the star that its root has in common with the lowest baseline that shares
//! with it are the baselines between these two, all of them or all but one, the cross.

ghost use Rattle.std.specs.Prelude.{◌≡◌, ℕ, true, ◌≢◌};
ghost use Rattle.bitset.specs.Sets.{has, minus};
ghost use Rattle.theory.specs.Search.{Start, between, crossed, first, passes};
ghost use Rattle.layout.specs.Told.{told};

use super::rows::Rows;
use super::walk::Walk;
use bitset::BaselineSet;

// The set without the cross.
fn uncrossed(set: BaselineSet, cross: Option<usize>) -> BaselineSet
    ensures { result.bits ≡ minus set.bits (crossed cross) }
{
    match cross {
        None => set,
        Some(x) => set.without(x),
    }
}

impl Rows {
    // Whether all baselines of a share with each other.
    pub fn is_clique(&self, a: BaselineSet) -> bool
        ensures { ((v w : ℕ) → has a.bits v ≡ true → has a.bits w ≡ true → v ≢ w → (told self.now).shares v w ≡ true) → result ≡ true }
    {
        a.into_iter()
            .all(|v| a.minus(self.row(v).with(v)).is_empty())
    }
}

impl<'a> Walk<'a> {
    // The baselines that share with the root and with the lowest baseline that shares with the root.
    pub fn between(&self) -> BaselineSet
        ensures { result.bits ≡ between (told self.now.rows.now) self.now.root }
    {
        let row = self.rows.row(self.root);
        match row.lowest() {
            None => row,
            Some(s) => row.common(self.rows.row(s)),
        }
    }

    // The first star of a start.
    pub fn first_star(&self, cross: Option<usize>) -> BaselineSet
        ensures { result.bits ≡ first (told self.now.rows.now) self.now.root cross }
    {
        let alone = BaselineSet::empty().with(self.root);
        match self.rows.row(self.root).lowest() {
            None => alone,
            Some(s) => alone.with(s).union(uncrossed(self.between(), cross)),
        }
    }

    // Whether a start can pass: a cross shares with no other baseline between, and the first star is a clique.
    pub fn can_pass(&self, cross: Option<usize>, star: BaselineSet) -> bool
        requires start { Start (told self.now.rows.now) self.now.root cross }
        requires first { star.bits ≡ first (told self.now.rows.now) self.now.root cross }
        ensures { passes (told self.now.rows.now) self.now.root cross ≡ true → result ≡ true }
    {
        if let Some(x) = cross
            && !self.rows.row(x).common(self.between()).is_empty()
        {
            return false;
        }
        self.rows.is_clique(star)
    }
}

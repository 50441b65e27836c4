//! The numbers of the imagers.

ghost use Rattle.std.specs.Prelude.{◌≡◌, ℕ, ◌<◌, ◌≤◌, ◌&&◌, length, if◌then◌else◌, nat_le, nat_lt, slice_index_or};
ghost use Rattle.bitset.specs.Sets.{has};
ghost use Rattle.theory.specs.Imagers.{second};
ghost use Rattle.theory.specs.Record.{blank};
ghost use Rattle.theory.specs.Stars.{star, Stars};
ghost use Rattle.layout.specs.Numbers.{given, unnumbered, Given, Begun, Numbered};
ghost use Rattle.layout.specs.Tables.{bits_at};
ghost use Rattle.layout.specs.Told.{told};

use super::near::NearStars;
use super::numbers::Numbers;
use bitset::BaselineSet;
use theory::{Entry, Record};

// The second lowest baseline of a star, or 64 where there is none.
fn second(a: BaselineSet) -> usize
    ensures { result ≡ second a.bits }
{
    a.into_iter().nth(1).unwrap_or(64)
}

// Two stars, the one with the lower second baseline first.
fn in_order(a: BaselineSet, b: BaselineSet) -> (BaselineSet, BaselineSet)
    ensures { result ≡ (if nat_le (second a.bits) (second b.bits) then (a, b) else (b, a)) }
{
    if second(a) <= second(b) {
        (a, b)
    } else {
        (b, a)
    }
}

impl Numbers {
    // Gives the next number to the imager with this star.
    fn give(&mut self, a: BaselineSet)
        requires room { self.old.next < 255 }
        ensures { Given self.old a.bits self.new }
    {
        for w in a {
            if self.begun.has(w) {
                self.entries[w].higher = self.next;
            } else {
                self.entries[w].lower = self.next;
            }
        }
        self.begun = self.begun.union(a);
        self.next += 1;
    }

    // Gives the next number to the imager with this star, if v is its lowest baseline.
    pub fn begin(&mut self, v: usize, a: BaselineSet)
        requires below { v < 64 }
        requires room { self.old.next < 255 }
        ensures { Begun self.old v a.bits self.new }
    {
        if a.lowest() == Some(v) {
            self.give(a);
        }
    }
}

// Entries without imagers that tell which baselines are doubtful.
fn doubts(count: usize, doubtful: BaselineSet) -> [Entry; 64]
    requires { count ≤ 64 }
    ensures long { length result ≡ 64 }
    ensures told { (w : ℕ) → slice_index_or result w blank ≡ unnumbered (nat_lt w count && has doubtful.bits w) }
{
    let mut entries = Record::new().entries;
    for v in 0..count {
        entries[v].doubtful = doubtful.has(v);
    }
    entries
}

// Numbers all imagers: the stars that begin at a lower baseline first, and of two that begin at one baseline the one
// with the lower second baseline.
pub fn number(near: &NearStars, doubtful: BaselineSet) -> Numbers
    requires { Stars (told near.now.rows.now) (λ v. v < near.now.rows.now.count) (star (told near.now.rows.now) (bits_at near.now.near)) }
    ensures { Numbered (told near.now.rows.now) (bits_at near.now.near) doubtful.bits result }
{
    let count = near.rows.count;
    let mut numbers = Numbers {
        entries: doubts(count, doubtful),
        begun: BaselineSet::empty(),
        next: 0,
    };
    for v in 0..count {
        let (one, two) = in_order(near.near[v], near.far(v));
        numbers.begin(v, one);
        numbers.begin(v, two);
    }
    numbers
}

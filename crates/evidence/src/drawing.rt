//! A drawing: the imagers as somebody drew them, read as evidence.

ghost use Rattle.std.specs.Prelude.{◌≡◌, ◌<◌, Bool, true, ◌↔◌};
ghost use Rattle.evidence.specs.Drawing.{drawn, drawn_sound, same_two, one_common, ExactlyOne, entries, entry, New, Proper};
ghost use Rattle.evidence.specs.LineGraph.{LineGraph};

use super::evidence::Evidence;
use super::pair::ask_pair;

/// Two bytes to a baseline, its two imager numbers. Bytes past the 128th and an odd last byte are not read.
#[derive(Drop)]
pub struct Drawing<'a> {
    pub bytes: &'a [u8],
}

// Whether both entries hold the same two different numbers.
fn same_two(d: (u8, u8), e: (u8, u8)) -> bool
    ensures { result ≡ same_two d e }
{
    d.0 != d.1 && (d == e || d == (e.1, e.0))
}

// Whether exactly one number stands in both entries.
fn one_common(d: (u8, u8), e: (u8, u8)) -> bool
    ensures test { result ≡ one_common d e }
    ensures fact { (result ≡ true) ↔ ExactlyOne d e }
{
    let some = d.0 == e.0 || d.0 == e.1 || d.1 == e.0 || d.1 == e.1;
    some && !same_two(d, e)
}

impl<'a> Evidence for Drawing<'a> {
    ghost meaning = { λ d. drawn d.bytes.now };

    ghost sound = { λ d. drawn_sound d.bytes.now };

    fn count(&self) -> usize {
        (self.bytes.len() / 2).min(64)
    }

    fn shares(&self, i: usize, j: usize) -> bool {
        ask_pair(self.count(), i, j).is_ok() && one_common(self.entry_of(i), self.entry_of(j))
    }
}

impl Drawing<'_> {
    // The two numbers of baseline i.
    fn entry_of(&self, i: usize) -> (u8, u8)
        requires { i < entries self.now.bytes.now }
        ensures { result ≡ entry self.now.bytes.now i }
    {
        (self.bytes[2 * i], self.bytes[2 * i + 1])
    }

    // Whether entry i has two different numbers that no entry before it has.
    fn is_new(&self, i: usize) -> bool
        requires { i < entries self.now.bytes.now }
        ensures { (result ≡ true) ↔ New self.now.bytes.now i }
    {
        let d = self.entry_of(i);
        d.0 != d.1 && (0..i).all(|j| !same_two(d, self.entry_of(j)))
    }

    /// Whether each entry has two different numbers and no two entries hold the same two. A proper drawing is exactly
    /// its line graph: one node to an edge, two nodes adjacent when their edges have a vertex in common.
    pub fn is_proper(&self) -> bool
        ensures told { (result ≡ true) ↔ Proper self.now.bytes.now }
        ensures graph { Proper self.now.bytes.now → LineGraph (entries self.now.bytes.now) (entry self.now.bytes.now) (drawn self.now.bytes.now) }
    {
        (0..self.count()).all(|i| self.is_new(i))
    }
}

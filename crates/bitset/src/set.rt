//! `BaselineSet`: a set of baselines, which are numbers below 64.

ghost use Rattle.std.specs.Prelude.{◌≡◌, ℕ, ◌<◌, Bool, false, not, ◌&&◌, ◌||◌, MatchOption, ◌==◌, bit_and, bit_or, nat_lt};
ghost use Rattle.bitset.specs.Sets.{has, minus, put, drop, Lowest, Highest};

/// A set of baselines. Numbers from 64 on are never members.
#[derive(Clone, Copy, PartialEq, Eq)]
pub struct BaselineSet {
    bits: u64,
}

impl BaselineSet {
    /// The set with no member.
    pub fn empty() -> Self
        ensures { result.bits ≡ 0 }
    {
        BaselineSet { bits: 0 }
    }

    /// Whether `i` is a member.
    pub fn has(self, i: usize) -> bool
        ensures { result ≡ has self.bits i }
    {
        i < 64 && (self.bits >> i) & 1 == 1
    }

    /// Whether there is no member.
    pub fn is_empty(self) -> bool
        ensures { result ≡ (self.bits == 0) }
    {
        self.bits == 0
    }

    /// The set with `i` as a member too; the same set where `i` is no baseline.
    pub fn with(self, i: usize) -> Self
        ensures bits { result.bits ≡ put self.bits i }
        ensures members { (k : ℕ) → has result.bits k ≡ (has self.bits k || (k == i && nat_lt i 64)) }
    {
        if i < 64 {
            return BaselineSet {
                bits: self.bits | (1 << i),
            };
        }
        self
    }

    /// The set without `i`.
    pub fn without(self, i: usize) -> Self
        ensures bits { result.bits ≡ drop self.bits i }
        ensures members { (k : ℕ) → has result.bits k ≡ (has self.bits k && not (k == i)) }
    {
        if i < 64 {
            return BaselineSet {
                bits: self.bits & !(1 << i),
            };
        }
        self
    }

    /// The members of one or the other.
    pub fn union(self, other: Self) -> Self
        ensures bits { result.bits ≡ bit_or self.bits other.bits }
        ensures members { (k : ℕ) → has result.bits k ≡ (has self.bits k || has other.bits k) }
    {
        BaselineSet {
            bits: self.bits | other.bits,
        }
    }

    /// The members of both.
    pub fn common(self, other: Self) -> Self
        ensures bits { result.bits ≡ bit_and self.bits other.bits }
        ensures members { (k : ℕ) → has result.bits k ≡ (has self.bits k && has other.bits k) }
    {
        BaselineSet {
            bits: self.bits & other.bits,
        }
    }

    /// The members that the other has not.
    pub fn minus(self, other: Self) -> Self
        ensures bits { result.bits ≡ minus self.bits other.bits }
        ensures members { (k : ℕ) → has result.bits k ≡ (has self.bits k && not (has other.bits k)) }
    {
        BaselineSet {
            bits: self.bits & !other.bits,
        }
    }

    /// The lowest member, or none where the set is empty.
    pub fn lowest(self) -> Option<usize>
        ensures { MatchOption result (self.bits ≡ 0) (Lowest self.bits) }
    {
        if self.is_empty() {
            return None;
        }
        Some(self.bits.trailing_zeros() as usize)
    }

    /// The highest member, or none where the set is empty.
    pub fn highest(self) -> Option<usize>
        ensures { MatchOption result (self.bits ≡ 0) (Highest self.bits) }
    {
        if self.is_empty() {
            return None;
        }
        Some(63 - self.bits.leading_zeros() as usize)
    }
}

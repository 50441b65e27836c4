//! Two evidences beside each other.

ghost use Rattle.std.specs.Prelude.{◌≡◌};
ghost use Rattle.evidence.specs.Beside.{beside, beside_sound};

use super::evidence::Evidence;

/// The second's numbers follow the first's, with no sharing between the two and nothing past the 64th.
#[derive(Drop)]
pub struct Beside<P, Q> {
    pub first: P,
    pub second: Q,
}

impl<P: Evidence, Q: Evidence> Evidence for Beside<P, Q> {
    ghost meaning = { λ b. beside (P.Evidence.meaning b.first) (Q.Evidence.meaning b.second) };

    ghost sound = { λ b. beside_sound _ _ (P.Evidence.sound b.first) (Q.Evidence.sound b.second) };

    fn count(&self) -> usize {
        (self.first.count() + self.second.count()).min(64)
    }

    fn shares(&self, i: usize, j: usize) -> bool {
        let n = self.first.count();
        if i < n {
            return self.first.shares(i, j);
        }
        if j < n || i >= 64 || j >= 64 {
            return false;
        }
        self.second.shares(i - n, j - n)
    }
}

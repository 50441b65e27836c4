//! The search on all clusters of a table.

ghost use Rattle.std.specs.Prelude.{◌≡◌, ◌+◌, ◌<◌, false, IfOk, MatchResult};
ghost use Rattle.bitset.specs.Sets.{has};
ghost use Rattle.evidence.specs.declared.refusal.Refusal.TheVariants.{NoLayout};
ghost use Rattle.theory.specs.Placed.{Clash};
ghost use Rattle.layout.specs.Answered.{Settling, Answered};
ghost use Rattle.layout.specs.Told.{told};

use super::near::NearStars;
use super::rows::Rows;
use super::settle::settle;
use super::walk::Walk;
use bitset::BaselineSet;
use evidence::Refusal;

// The near stars of the baselines whose clusters are settled, and which of these are doubtful.
#[derive(Drop)]
pub struct Clusters<'a> {
    pub near: NearStars<'a>,
    pub settled: BaselineSet,
    pub doubtful: BaselineSet,
}

impl<'a> Clusters<'a> {
    // Settles the cluster of r, where those of all lower baselines are settled and r is in none of them.
    fn add(&mut self, r: usize) -> Result<(), Refusal>
        requires below { r < self.old.near.rows.now.count }
        requires settling { Settling (told self.old.near.rows.now) self.old r }
        requires fresh { has self.old.settled.bits r ≡ false }
        ensures rows { self.new.near.rows.now ≡ self.old.near.rows.now }
        ensures added { MatchResult result (λ _. Settling (told self.old.near.rows.now) self.new (r + 1)) (λ e. (e ≡ NoLayout r) × Clash (told self.old.near.rows.now) r) }
    {
        let walk = Walk::of_cluster(self.near.rows, r);
        let doubtful = settle(&walk, &mut self.near).ok_or(Refusal::NoLayout(r))?;
        self.settled = self.settled.union(walk.met);
        if doubtful {
            self.doubtful = self.doubtful.union(walk.met);
        }
        Ok(())
    }
}

// Settles all clusters, each from its lowest baseline; refused with 18 at the first that has no layout.
pub fn settle_all<'a>(rows: &'a Rows) -> Result<Clusters<'a>, Refusal>
    ensures rows { IfOk result (λ x. x.near.rows.now ≡ rows.now) }
    ensures answered { Answered (told rows.now) result }
{
    let near = NearStars {
        rows,
        near: [BaselineSet::empty(); 64],
    };
    let mut found = Clusters {
        near,
        settled: BaselineSet::empty(),
        doubtful: BaselineSet::empty(),
    };
    for r in 0..rows.count {
        if !found.settled.has(r) {
            found.add(r)?;
        }
    }
    Ok(found)
}

//! The walk through a cluster.

ghost use Rattle.std.specs.Prelude.{◌≡◌, ◌+◌, ◌<◌, ◌≤◌, ◌++◌, length, map};
ghost use Rattle.bitset.specs.Sets.{members};
ghost use Rattle.layout.specs.Told.{told};
ghost use Rattle.layout.specs.Walked.{Walked};

use super::rows::Rows;
use arrayvec::ArrayVec;
use bitset::BaselineSet;

// Steps in their order, each from a baseline met before to a new one.
type Steps = ArrayVec<(usize, usize), 64>;

// A walk from a root through its whole cluster: the baselines that were met, and the steps.
#[derive(Drop)]
pub struct Walk<'a> {
    pub rows: &'a Rows,
    pub root: usize,
    pub met: BaselineSet,
    pub steps: Steps,
    ghost walked: { Walked (told rows.now) root met.bits steps.items },
}

// Steps from u to each of these baselines.
fn step_to(steps: &mut Steps, u: usize, new: BaselineSet)
    requires { length steps.old.items + length (members new.bits) ≤ 64 }
    ensures { steps.new.items ≡ steps.old.items ++ map (λ v. (u, v)) (members new.bits) }
{
    for v in new {
        steps.push((u, v));
    }
}

impl<'a> Walk<'a> {
    // The walk from a root.
    pub fn of_cluster(rows: &'a Rows, root: usize) -> Self
        requires { root < rows.now.count }
        ensures rows { result.rows.now ≡ rows.now }
        ensures from { result.root ≡ root }
    {
        let mut met = BaselineSet::empty().with(root);
        let mut steps = ArrayVec::new();
        let mut visited = BaselineSet::empty();
        while let Some(u) = met.minus(visited).lowest() {
            let new = rows.row(u).minus(met);
            step_to(&mut steps, u, new);
            met = met.union(new);
            visited = visited.with(u);
        }
        Walk {
            rows,
            root,
            met,
            steps,
        }
    }
}

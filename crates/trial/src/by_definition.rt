//! A slow search straight from the definitions, for at most six baselines. It shares nothing with the search of the library.

use super::ends::{Ends, has_trio, in_common};
use super::told::{Told, ends_of};
use bitset::BaselineSet;
use evidence::{Evidence, Refusal};
use std::alloc::{AllocError, Global};
use std::collections::BTreeSet;

// How many baselines it takes.
const MOST: usize = 6;

// Of each three baselines in their order, whether they have a common imager.
type Grouping = Vec<bool>;

fn grouping_of(alloc: Global, ends: &[Ends]) -> Result<Grouping, AllocError> {
    let mut grouping = Vec::new(alloc);
    for (i, d) in ends.iter().enumerate() {
        for (j, e) in ends.iter().enumerate().skip(i + 1) {
            for f in &ends[j + 1..] {
                grouping.push(has_trio(*d, *e, *f))?;
            }
        }
    }
    Ok(grouping)
}

// A baseline that is laid out.
#[derive(Clone, Copy)]
struct Laid {
    baseline: usize,
    ends: Ends,
}

// A search for all layouts of some baselines.
#[derive(Drop)]
struct Search<'a, E> {
    alloc: Global,
    evidence: &'a E,
    laid: Vec<Laid>,
    found: BTreeSet<Grouping>,
}

impl<E: Evidence> Search<'_, E> {
    // Whether a baseline may have these ends beside those that are laid out.
    fn fits(&self, baseline: usize, own: Ends) -> bool {
        self.laid.iter().all(|laid| {
            in_common(laid.ends, own) == u8::from(self.evidence.shares(laid.baseline, baseline))
        })
    }

    // Keeps how the layout that is laid out groups the baselines.
    fn note(&mut self) -> Result<(), AllocError> {
        let ends: Vec<Ends> = self.laid.iter().map(|laid| laid.ends).collect(self.alloc)?;
        self.found
            .insert(grouping_of(self.alloc, ends.as_slice())?)?;
        Ok(())
    }

    // Lays out the baselines that are left in every way, `used` imagers being in use, new ones in their order.
    fn extend(&mut self, left: &[usize], used: u8) -> Result<(), AllocError> {
        let Some((baseline, left)) = left.split_first() else {
            return self.note();
        };
        for low in 0..=used {
            let next = low.saturating_add(1);
            // of the two that are new the second comes only beside the first
            for high in next..=used.max(next) {
                let own = (low, high);
                if self.fits(*baseline, own) {
                    self.laid.push(Laid {
                        baseline: *baseline,
                        ends: own,
                    })?;
                    self.extend(left, used.max(high.saturating_add(1)))?;
                    self.laid.pop();
                }
            }
        }
        Ok(())
    }
}

// How the layouts of the baselines of a set group them, the layout that leads last.
fn groupings_of<E: Evidence>(
    alloc: Global,
    evidence: &E,
    among: BaselineSet,
) -> Result<BTreeSet<Grouping>, AllocError> {
    let count = evidence.count().min(MOST);
    let members: Vec<usize> = among.into_iter().filter(|i| *i < count).collect(alloc)?;
    let mut search = Search {
        alloc,
        evidence,
        laid: Vec::new(alloc),
        found: BTreeSet::new(alloc),
    };
    search.extend(members.as_slice(), 0)?;
    Ok(search.found)
}

// The set with all that share with a member of it.
fn widened<E: Evidence>(evidence: &E, set: BaselineSet) -> BaselineSet {
    (0..MOST)
        .filter(|j| set.into_iter().any(|i| evidence.shares(i, *j)))
        .fold(set, |wider, j| wider.with(j))
}

// The cluster of a baseline.
fn cluster_of<E: Evidence>(evidence: &E, i: usize) -> BaselineSet {
    (0..MOST).fold(BaselineSet::empty().with(i), |cluster, _| {
        widened(evidence, cluster)
    })
}

// The lowest baseline whose cluster has no layout.
fn clash_of<E: Evidence>(alloc: Global, evidence: &E) -> Result<Option<usize>, AllocError> {
    for i in 0..evidence.count().min(MOST) {
        if groupings_of(alloc, evidence, cluster_of(evidence, i))?.is_empty() {
            return Ok(Some(i));
        }
    }
    Ok(None)
}

// Whether each baseline is told doubtful exactly when its cluster has two layouts that do not group alike.
fn doubts_right<E: Evidence>(alloc: Global, evidence: &E, told: &Told) -> Result<bool, AllocError> {
    for (i, entry) in told.entries().iter().enumerate() {
        let groupings = groupings_of(alloc, evidence, cluster_of(evidence, i))?;
        if entry.doubtful != (groupings.len() > 1) {
            return Ok(false);
        }
    }
    Ok(true)
}

// Whether a layout of at most six baselines is the one that the definitions say.
fn layout_right<E: Evidence>(alloc: Global, evidence: &E, told: &Told) -> Result<bool, AllocError> {
    let all = (0..MOST).fold(BaselineSet::empty(), |set, i| set.with(i));
    let groupings = groupings_of(alloc, evidence, all)?;
    let ends: Vec<Ends> = told.entries().iter().map(ends_of).collect(alloc)?;
    let grouping = grouping_of(alloc, ends.as_slice())?;
    Ok(
        groupings.last() == Some(&grouping)
            && told.is_layout_of(evidence)
            && told.is_numbered()
            && doubts_right(alloc, evidence, told)?,
    )
}

/// Whether the answer for at most six baselines is what the definitions say.
pub fn confirms<E: Evidence>(alloc: Global, evidence: &E) -> Result<bool, AllocError> {
    match Told::of(evidence) {
        Ok(told) => layout_right(alloc, evidence, &told),
        Err(Refusal::NoLayout(baseline)) => Ok(clash_of(alloc, evidence)? == Some(baseline)),
        Err(_) => Ok(false),
    }
}

//! The layout that is told of some evidence, held against what a layout is.

ghost use Rattle.std.specs.Prelude.{◌≤◌};

use super::ends::{Ends, in_common};
use bitset::BaselineSet;
use evidence::{Evidence, Refusal};
use layout::place;
use theory::{Entry, Record};

/// A layout that was told.
#[derive(Drop)]
pub struct Told {
    /// How many imagers it has.
    pub imagers: usize,
    count: usize,
    record: Record,
    ghost few: { count ≤ 64 },
}

impl Told {
    /// Places some evidence.
    pub fn of<E: Evidence>(evidence: &E) -> Result<Told, Refusal> {
        let mut record = Record::new();
        let imagers = place(evidence, &mut record)?;
        Ok(Told {
            imagers,
            count: evidence.count().min(64),
            record,
        })
    }

    /// What is told of each baseline.
    pub fn entries(&self) -> &[Entry] {
        &self.record.entries[..self.count]
    }

    /// How many baselines are doubtful.
    pub fn doubtful(&self) -> usize {
        self.entries().iter().filter(|entry| entry.doubtful).count()
    }

    // The baselines at an imager.
    fn baselines_at(&self, imager: usize) -> BaselineSet {
        self.entries()
            .iter()
            .enumerate()
            .filter(|(_, entry)| {
                usize::from(entry.lower) == imager || usize::from(entry.higher) == imager
            })
            .fold(BaselineSet::empty(), |set, (i, _)| set.with(i))
    }

    /// Whether the imagers have the numbers from 0 on, each of them used, in their order, and each baseline's are told lower
    /// first.
    pub fn is_numbered(&self) -> bool {
        let in_order = self.entries().iter().all(|entry| {
            entry.lower < entry.higher && usize::from(entry.higher) < self.imagers
        });
        in_order
            && (0..self.imagers).all(|imager| !self.baselines_at(imager).is_empty())
            && (0..self.imagers)
                .map(|imager| self.baselines_at(imager))
                .is_sorted_by(|one, two| is_ahead(*one, *two))
    }

    /// Whether any two baselines have as many imagers in common as they share.
    pub fn is_layout_of<E: Evidence>(&self, evidence: &E) -> bool {
        self.entries().iter().enumerate().all(|(j, e)| {
            self.entries().iter().take(j).enumerate().all(|(i, d)| {
                in_common(ends_of(d), ends_of(e)) == u8::from(evidence.shares(i, j))
            })
        })
    }
}

/// The two imagers of a baseline.
pub fn ends_of(entry: &Entry) -> Ends {
    (entry.lower, entry.higher)
}

// Whether the rising list of a set comes before that of another, a list that ends coming last.
fn is_ahead(one: BaselineSet, two: BaselineSet) -> bool {
    match one.minus(two).union(two.minus(one)).lowest() {
        Some(first) => one.has(first),
        None => true,
    }
}

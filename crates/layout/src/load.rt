//! Reading evidence into rows.

ghost use Rattle.std.specs.Prelude.{◌≡◌};
ghost use Rattle.theory.specs.Stars.{row};
ghost use Rattle.layout.specs.Told.{told};

use super::rows::Rows;
use bitset::BaselineSet;
use evidence::Evidence;

// The baselines that share with i.
fn load_row<E: Evidence>(evidence: &E, i: usize) -> BaselineSet
    ensures { result.bits ≡ row (E.Evidence.meaning evidence.now) i }
{
    let mut row = BaselineSet::empty();
    for j in 0..evidence.count() {
        if evidence.shares(i, j) {
            row = row.with(j);
        }
    }
    row
}

// The rows that say what the evidence means.
pub fn load<E: Evidence>(evidence: &E) -> Rows
    ensures { told result ≡ E.Evidence.meaning evidence.now }
{
    let count = evidence.count();
    let mut rows = [BaselineSet::empty(); 64];
    for i in 0..count {
        rows[i] = load_row(evidence, i);
    }
    Rows { count, rows }
}

//! Placing the baselines of an evidence.

ghost use Rattle.std.specs.Prelude.{◌≤◌, IfOk};
ghost use Rattle.theory.specs.Placed.{Placed};
ghost use Rattle.layout.specs.Told.{told};

use super::clusters::settle_all;
use super::load::load;
use super::numbering::number;
use super::rows::Rows;
use evidence::{Evidence, Refusal};
use theory::Record;

// The layout of the table that the rows tell.
fn place_rows(rows: &Rows, record: &mut Record) -> Result<usize, Refusal>
    ensures placed { Placed (told rows.now) «record».old «record».new result }
    ensures few { IfOk result (λ imagers. imagers ≤ 128) }
{
    let found = settle_all(rows)?;
    let numbers = number(&found.near, found.doubtful);
    let entries = numbers.entries;
    *record = Record { entries };
    Ok(usize::from(numbers.next))
}

/// Finds the layout of an evidence, tells it in the record, and answers how many imagers there are, at most 128. Each entry below the
/// count gets the two imagers of its baseline and whether it is doubtful, and the entries from the count on are zero.
/// Refused with 18, and the record left as it was, where a cluster has no layout: its lowest baseline is named, and
/// of several such clusters the lowest.
pub fn place<E: Evidence>(evidence: &E, record: &mut Record) -> Result<usize, Refusal>
    ensures placed { Placed (E.Evidence.meaning evidence.now) «record».old «record».new result }
    ensures few { IfOk result (λ imagers. imagers ≤ 128) }
{
    let rows = load(evidence);
    place_rows(&rows, record)
}

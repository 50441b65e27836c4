//! Prints a drawing's table of sharing and its layout.

use super::ends::{Ends, bytes_of};
use super::told::Told;
use evidence::{Drawing, Evidence};
use theory::Entry;

// Prints the row of baseline i, 1 where it shares and a point where it does not.
fn print_row(rt: &HostRuntime, rig: &Drawing, i: usize) -> anyhow::Result<()> {
    print!(rt; "{i:>2}:")?;
    for j in 0..rig.count() {
        rt.print(if rig.shares(i, j) { " 1" } else { " ." })?;
    }
    rt.println("")?;
    Ok(())
}

// Prints the table of sharing.
fn print_table(rt: &HostRuntime, rig: &Drawing) -> anyhow::Result<()> {
    let count = rig.count();
    let kind = if rig.is_proper() {
        "a proper drawing"
    } else {
        "a drawing that is not proper"
    };
    println!(rt; "{count} baselines, {kind}")?;
    let mut pairs = 0usize;
    for i in 0..count {
        print_row(rt, rig, i)?;
        pairs = pairs.saturating_add((0..i).filter(|j| rig.shares(i, *j)).count());
    }
    println!(rt; "{pairs} pairs share an imager")?;
    Ok(())
}

// Prints the imagers and the standing of each baseline.
fn print_entries(rt: &HostRuntime, entries: &[Entry]) -> anyhow::Result<()> {
    for (i, entry) in entries.iter().enumerate() {
        let standing = if entry.doubtful {
            "doubtful"
        } else {
            "certain"
        };
        println!(rt;
            "{i:>2}: imagers {} and {}, {standing}",
            entry.lower, entry.higher
        )?;
    }
    Ok(())
}

/// Prints a drawing's table, and its layout or why there is none.
pub fn print_rig(rt: &HostRuntime, drawing: &[Ends]) -> anyhow::Result<()> {
    // a drawing reads no more than 64 baselines
    let read = &drawing[..drawing.len().min(64)];
    if read.len() < drawing.len() {
        rt.println("baselines past the 64th are not read")?;
    }
    let bytes = bytes_of(rt.alloc(), read)?;
    let rig = Drawing {
        bytes: bytes.as_slice(),
    };
    print_table(rt, &rig)?;
    match Told::of(&rig) {
        Ok(told) => {
            println!(rt; "{} imagers", told.imagers)?;
            print_entries(rt, told.entries())
        }
        Err(refusal) => {
            println!(rt; "refused: {refusal}")?;
            Ok(())
        }
    }
}

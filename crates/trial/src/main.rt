//! Takes a drawing through one task from beginning to end, and then puts the library through families of trials.

#![tactic(auto)]

// What a trial is made of, and what it is held against.
mod by_definition;
mod ends;
mod random;
mod score;
mod table;
mod told;

// The families of trials.
mod families;
mod odd;
mod worked;

// The task.
mod reading;
mod rig;

use families::{all_tables, damaged_tables, random_drawings};
use odd::odd_cases;
use score::Score;
use std::io::Read;

// Prints how many trials of a family came out right.
fn print_score(rt: &HostRuntime, family: &str, score: Score) -> anyhow::Result<()> {
    println!(rt; "{family}: {score}")?;
    Ok(())
}

fn run_families(rt: &HostRuntime) -> anyhow::Result<()> {
    let alloc = rt.alloc();
    print_score(rt, "worked rigs, five ways each", worked::run(alloc)?)?;
    print_score(rt, "odd cases", odd_cases()?)?;
    let drawn_back = random_drawings(alloc, 7, 2000)?;
    print_score(rt, "random drawings placed back", drawn_back)?;
    let damaged = damaged_tables(alloc, 11, 2000)?;
    print_score(rt, "damaged tables by definition", damaged)?;
    let of_four = all_tables(alloc, 4)?;
    print_score(rt, "all tables of four by definition", of_four)?;
    let of_five = all_tables(alloc, 5)?;
    print_score(rt, "all tables of five by definition", of_five)?;
    Ok(())
}

fn run(rt: &HostRuntime) -> anyhow::Result<()> {
    let mut text = Vec::new(rt.alloc());
    rt.stdin().read_to_end(&mut text)?;
    let drawing = reading::drawing_of(rt, text.as_slice())?;
    rig::print_rig(rt, drawing.as_slice())?;
    run_families(rt)
}

fn main(rt: HostRuntime) -> anyhow::Result<()> {
    run(&rt)
}

//! The fitters' program: a sheet of lines on standard input, the replies on standard output.

#![tactic(auto)]

use ledgers::WordGrid;
use lines::{REPLY, SheetLines, line};
use std::io::{Read, Write};
use survey::Survey;

// How many bytes of a sheet are read; what follows is not.
const MOST_BYTES: u64 = 16384;

// A sheet of so many bytes has no more lines.
const MOST_LINES: u16 = 16384;

// Hands a line with its number to the survey, and writes the reply.
fn answer_line<W: Write>(
    survey: &mut Survey<WordGrid>,
    bytes: &[u8],
    number: u16,
    out: &mut W,
) -> anyhow::Result<()> {
    let mut reply = [0; REPLY];
    let length = line(survey, bytes, number, &mut reply).unwrap();
    out.write_all(&reply[..length])?;
    Ok(())
}

// Answers the lines of a sheet, one after another.
fn answer_sheet<W: Write>(sheet: &[u8], out: &mut W) -> anyhow::Result<()> {
    let mut survey = Survey::open(1, WordGrid::new());
    for (number, bytes) in (1..=MOST_LINES).zip(SheetLines::of(sheet)) {
        answer_line(&mut survey, bytes, number, out)?;
    }
    Ok(())
}

fn run(rt: &HostRuntime) -> anyhow::Result<()> {
    let mut sheet = Vec::new(rt.alloc());
    rt.stdin().take(MOST_BYTES).read_to_end(&mut sheet)?;
    answer_sheet(&sheet, &mut rt.stdout())
}

fn main(rt: HostRuntime) -> anyhow::Result<()> {
    run(&rt)
}

#[cfg(test)]
mod tests;

//! Issues over both ledgers: the bytes of both files, the refusals, and withdrawals.

use super::holding::*;
use evidence::{Ledger, Refusal};
use ledgers::{PairList, WordGrid};
use std::process::Abort;
use std::test::Fail;
use survey::{Paper, Survey};

// The files of the first issue, from place 3 on.
const WRITTEN: &[u8; 90] =
    b"...P,1,1,3\nL,0,0,500\nL,0,1,620\nL,1,0,500\nL,2,1,620\nT,1,1,2\nR,0,0,1,500,C\nR,1,0,2,620,C\n...";

const PROFILE_BYTES: usize = 48;

const TABLE_BYTES: usize = 36;

/// Two baselines that share, resolved: three imagers.
pub fn prepare<L: Ledger>(rt: &impl Abort, survey: &mut Survey<L>) -> Result<(), Fail> {
    assert_eq!(rt; survey.enlist(500), Ok(0));
    assert_eq!(rt; survey.enlist(620), Ok(1));
    assert_eq!(rt; survey.share(0, 1), Ok(true));
    assert_eq!(rt; begin_and_withdraw(survey), Err(Refusal::Unresolved));
    assert_eq!(rt; survey.resolve()?.imagers, 3);
    Ok(())
}

// Writes both files of an issue, one after the other from a place on: their lengths.
fn whole_issue<L: Ledger>(
    survey: &mut Survey<L>,
    buffer: &mut [u8],
    place: usize,
) -> Result<(usize, usize), Refusal> {
    let opening = survey.begin()?;
    let (closing, profile_bytes) = profile(survey, opening, buffer, place)?;
    match survey.table(closing, buffer, place.saturating_add(profile_bytes)) {
        Ok(table_bytes) => Ok((profile_bytes, table_bytes)),
        Err((closing, refusal)) => {
            put_away(survey, Paper::Closes(closing));
            Err(refusal)
        }
    }
}

// Every byte of the files, and of the buffer around them.
fn files<L: Ledger>(rt: &impl Abort, survey: &mut Survey<L>) -> Result<(), Fail> {
    prepare(rt, survey)?;
    let mut buffer = [b'.'; 90];
    assert_eq!(rt;
        whole_issue(survey, &mut buffer, 3),
        Ok((PROFILE_BYTES, TABLE_BYTES))
    );
    assert!(rt; buffer == *WRITTEN);
    assert_eq!(rt; begin_and_withdraw(survey), Ok(2));
    Ok(())
}

// The refusals of a profile in a buffer that is a byte short, past its end and at the last place of all.
fn profile_without_room<L: Ledger>(
    survey: &mut Survey<L>,
    buffer: &mut [u8],
) -> Result<[Refusal; 3], Fail> {
    let opening = survey.begin()?;
    let (opening, short) = no_profile(survey, opening, buffer, 1)?;
    let (opening, past) = no_profile(survey, opening, buffer, buffer.len().saturating_add(1))?;
    let (opening, last) = no_profile(survey, opening, buffer, usize::MAX)?;
    put_away(survey, Paper::Opens(opening));
    Ok([short, past, last])
}

// The same of a table. The profile is written into a buffer of its own.
fn table_without_room<L: Ledger>(
    survey: &mut Survey<L>,
    buffer: &mut [u8],
) -> Result<[Refusal; 3], Fail> {
    let opening = survey.begin()?;
    let (closing, _) = profile(survey, opening, &mut [0; PROFILE_BYTES], 0)?;
    let Err((closing, short)) = survey.table(closing, buffer, 1) else {
        return Err(Fail::new("a table is written"));
    };
    let Err((closing, past)) = survey.table(closing, buffer, buffer.len().saturating_add(1)) else {
        return Err(Fail::new("a table is written past the end"));
    };
    let Err((closing, last)) = survey.table(closing, buffer, usize::MAX) else {
        return Err(Fail::new("a table is written at the last place"));
    };
    put_away(survey, Paper::Closes(closing));
    Ok([short, past, last])
}

// Without room a file is refused with its length, and the buffer is as it was.
fn room<L: Ledger>(rt: &impl Abort, survey: &mut Survey<L>) -> Result<(), Fail> {
    prepare(rt, survey)?;
    let mut buffer = [b'.'; PROFILE_BYTES];
    assert!(rt; profile_without_room(survey, &mut buffer)? == [Refusal::NoRoom(PROFILE_BYTES); 3]);
    assert!(rt; buffer == [b'.'; PROFILE_BYTES]);
    let mut buffer = [b'.'; TABLE_BYTES];
    assert!(rt; table_without_room(survey, &mut buffer)? == [Refusal::NoRoom(TABLE_BYTES); 3]);
    assert!(rt; buffer == [b'.'; TABLE_BYTES]);
    Ok(())
}

// The refusals of other calls while the opening paper of an issue is held, and while the closing one is.
fn calls_meanwhile<L: Ledger>(
    survey: &mut Survey<L>,
) -> Result<[[Option<Refusal>; 5]; 2], Refusal> {
    let opening = survey.begin()?;
    let begun = meanwhile(survey);
    let (closing, _) = profile(survey, opening, &mut [0; PROFILE_BYTES], 0)?;
    let profiled = meanwhile(survey);
    put_away(survey, Paper::Closes(closing));
    Ok([begun, profiled])
}

// An open issue closes the survey; a withdrawal ends it, and the next issue has the next number.
fn withdrawals<L: Ledger>(rt: &impl Abort, survey: &mut Survey<L>) -> Result<(), Fail> {
    prepare(rt, survey)?;
    assert!(rt; calls_meanwhile(survey)? == [[Some(Refusal::IssueOpen); 5]; 2]);
    assert_eq!(rt; begin_and_withdraw(survey), Ok(2));
    assert_eq!(rt; begin_and_withdraw(survey), Ok(3));
    assert_eq!(rt; survey.share(0, 1), Ok(false));
    assert_eq!(rt; survey.enlist(700), Ok(2));
    assert_eq!(rt; begin_and_withdraw(survey), Err(Refusal::Unresolved));
    Ok(())
}

#[test]
fn files_over_a_grid(rt: HostRuntime) -> Result<(), Fail> {
    files(&rt, &mut Survey::open(1, WordGrid::new()))
}

#[test]
fn files_over_a_list(rt: HostRuntime) -> Result<(), Fail> {
    files(&rt, &mut Survey::open(1, PairList::new()))
}

#[test]
fn room_over_a_grid(rt: HostRuntime) -> Result<(), Fail> {
    room(&rt, &mut Survey::open(1, WordGrid::new()))
}

#[test]
fn room_over_a_list(rt: HostRuntime) -> Result<(), Fail> {
    room(&rt, &mut Survey::open(1, PairList::new()))
}

#[test]
fn withdrawals_over_a_grid(rt: HostRuntime) -> Result<(), Fail> {
    withdrawals(&rt, &mut Survey::open(1, WordGrid::new()))
}

#[test]
fn withdrawals_over_a_list(rt: HostRuntime) -> Result<(), Fail> {
    withdrawals(&rt, &mut Survey::open(1, PairList::new()))
}

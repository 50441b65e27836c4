//! Papers that are shown to a survey that has not given them.

ghost use Rattle.std.specs.Prelude.{◌≡◌, true, false, IfOk};
ghost use Rattle.survey.specs.Papers.{admits, admits_opening};
ghost use Rattle.survey.specs.Views.{view};

use super::holding::*;
use super::issues::prepare;
use evidence::{Ledger, Refusal};
use ledgers::{PairList, WordGrid};
use std::process::Abort;
use std::test::Fail;
use survey::{Opening, Paper, Survey};

// What a survey answers to a paper that it does not admit: the refusals of its file and of withdrawing it. The paper is
// handed back.
fn shown<L: Ledger>(survey: &mut Survey<L>, paper: Paper) -> (Paper, [Refusal; 2])
    requires { admits (view L.Evidence L.Ledger.own survey.old) paper ≡ false }
    ensures { (result.0 ≡ paper) × (view L.Evidence L.Ledger.own survey.new ≡ view L.Evidence L.Ledger.own survey.old) }
{
    let (paper, file) = match paper {
        Paper::Opens(opening) => {
            let (opening, refusal) = survey.profile(opening, &mut [0; 90], 0).unwrap_err();
            (Paper::Opens(opening), refusal)
        }
        Paper::Closes(closing) => {
            let (closing, refusal) = survey.table(closing, &mut [0; 90], 0).unwrap_err();
            (Paper::Closes(closing), refusal)
        }
    };
    let (paper, withdrawal) = survey.withdraw(paper).unwrap_err();
    (paper, [file, withdrawal])
}

// Begins an issue of each of two surveys.
fn begin_both<L: Ledger>(
    home: &mut Survey<L>,
    other: &mut Survey<L>,
) -> Result<(Opening, Opening), Refusal>
    ensures own { IfOk result (λ a. admits_opening (view L.Evidence L.Ledger.own home.new) a.0 ≡ true) }
    ensures foreign { IfOk result (λ a. admits_opening (view L.Evidence L.Ledger.own other.new) a.1 ≡ true) }
{
    let own = home.begin()?;
    match other.begin() {
        Ok(foreign) => Ok((own, foreign)),
        Err(refusal) => {
            put_away(home, Paper::Opens(own));
            Err(refusal)
        }
    }
}

// What a survey answers to the opening paper of an issue with other numbers than its own.
fn other_numbers<L: Ledger>(
    home: &mut Survey<L>,
    other: &mut Survey<L>,
) -> Result<[Refusal; 2], Fail> {
    let (own, foreign) = begin_both(home, other)?;
    if own.survey() == foreign.survey() && own.issue() == foreign.issue() {
        put_away(home, Paper::Opens(own));
        put_away(other, Paper::Opens(foreign));
        return Err(Fail::new("the numbers are the same"));
    }
    let (foreign, refusals) = shown(home, Paper::Opens(foreign));
    put_away(home, Paper::Opens(own));
    put_away(other, foreign);
    Ok(refusals)
}

// What a survey whose profile is written answers to an opening paper, and one whose profile is not to a closing paper.
fn other_stage<L: Ledger>(
    home: &mut Survey<L>,
    twin: &mut Survey<L>,
) -> Result<[[Refusal; 2]; 2], Fail> {
    let (opening, own) = begin_both(home, twin)?;
    match profile(twin, own, &mut [0; 90], 0) {
        Ok((closing, _)) => {
            let (opening, late) = shown(twin, Paper::Opens(opening));
            let (closing, early) = shown(home, Paper::Closes(closing));
            put_away(home, opening);
            put_away(twin, closing);
            Ok([late, early])
        }
        Err(_) => {
            put_away(home, Paper::Opens(opening));
            Err(Fail::new("no profile"))
        }
    }
}

// What a survey with no issue open answers to an opening paper.
fn no_issue<L: Ledger>(home: &mut Survey<L>, twin: &mut Survey<L>) -> Result<[Refusal; 2], Fail> {
    let (own, foreign) = begin_both(home, twin)?;
    put_away(home, Paper::Opens(own));
    let (foreign, refusals) = shown(home, Paper::Opens(foreign));
    put_away(twin, foreign);
    Ok(refusals)
}

// Whether two surveys of one number at one issue take each other's papers.
fn exchanged<L: Ledger>(home: &mut Survey<L>, twin: &mut Survey<L>) -> Result<bool, Fail> {
    let (own, foreign) = begin_both(home, twin)?;
    match twin.profile(own, &mut [0; 90], 0) {
        Ok((closing, _)) => {
            put_away(twin, Paper::Closes(closing));
            put_away(home, Paper::Opens(foreign));
            Ok(true)
        }
        Err((own, _)) => {
            put_away(home, Paper::Opens(own));
            put_away(twin, Paper::Opens(foreign));
            Ok(false)
        }
    }
}

// A paper is judged by its numbers and its type alone. Two surveys of number 1 and one of number 2.
fn strangers<L: Ledger + Drop, F: Fn() -> L>(rt: &impl Abort, new: F) -> Result<(), Fail>
    requires { F.IsAlwaysCallable new }
{
    let home = &mut Survey::open(1, new());
    let twin = &mut Survey::open(1, new());
    let other = &mut Survey::open(2, new());
    prepare(rt, home)?;
    prepare(rt, twin)?;
    prepare(rt, other)?;
    assert!(rt; other_numbers(home, other)? == [Refusal::WrongPaper; 2]);
    // the second issue of the one, and the first of its twin
    assert!(rt; other_numbers(home, twin)? == [Refusal::WrongPaper; 2]);
    assert_eq!(rt; begin_and_withdraw(twin), Ok(2));
    // from here on both are at the same issue
    assert!(rt; exchanged(home, twin)?);
    assert!(rt; other_stage(home, twin)? == [[Refusal::WrongPaper; 2]; 2]);
    assert!(rt; no_issue(home, twin)? == [Refusal::WrongPaper; 2]);
    Ok(())
}

#[test]
fn strangers_over_a_grid(rt: HostRuntime) -> Result<(), Fail> {
    strangers(&rt, WordGrid::new)
}

#[test]
fn strangers_over_a_list(rt: HostRuntime) -> Result<(), Fail> {
    strangers(&rt, PairList::new)
}

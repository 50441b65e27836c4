//! Papers in tests. Whatever a call answers, each of these ends with its papers spent or handed on.

ghost use Rattle.std.specs.Prelude.{◌≡◌, true, false, IfOk};
ghost use Rattle.survey.specs.declared.state.State.TheVariants.{Resolved};
ghost use Rattle.survey.specs.Issues.{at_stage};
ghost use Rattle.survey.specs.Papers.{admits, admits_opening, admits_closing};
ghost use Rattle.survey.specs.Views.{view, idle};

use evidence::{Ledger, Refusal};
use std::test::Fail;
use survey::{Closing, Opening, Paper, Survey};

/// Ends the open issue by its paper.
pub fn put_away<L: Ledger>(survey: &mut Survey<L>, paper: Paper)
    requires { admits (view L.Evidence L.Ledger.own survey.old) paper ≡ true }
    ensures { view L.Evidence L.Ledger.own survey.new ≡ at_stage (view L.Evidence L.Ledger.own survey.old) Resolved }
{
    survey.withdraw(paper).unwrap();
}

/// Begins an issue, withdraws it and answers its number. While an issue is open, the survey stays the same.
pub fn begin_and_withdraw<L: Ledger>(survey: &mut Survey<L>) -> Result<u16, Refusal>
    ensures { idle (view L.Evidence L.Ledger.own survey.old).state ≡ false → view L.Evidence L.Ledger.own survey.new ≡ view L.Evidence L.Ledger.own survey.old }
{
    let opening = survey.begin()?;
    let issue = opening.issue();
    put_away(survey, Paper::Opens(opening));
    Ok(issue)
}

/// Writes the profile. Where that is refused, the issue is withdrawn.
pub fn profile<L: Ledger>(
    survey: &mut Survey<L>,
    paper: Opening,
    buffer: &mut [u8],
    place: usize,
) -> Result<(Closing, usize), Refusal>
    requires { admits_opening (view L.Evidence L.Ledger.own survey.old) paper ≡ true }
    ensures { IfOk result (λ a. admits_closing (view L.Evidence L.Ledger.own survey.new) a.0 ≡ true) }
{
    match survey.profile(paper, buffer, place) {
        Ok(written) => Ok(written),
        Err((opening, refusal)) => {
            put_away(survey, Paper::Opens(opening));
            Err(refusal)
        }
    }
}

/// A profile that is to be refused: its refusal, with the paper that is handed back. One that is written is withdrawn.
pub fn no_profile<L: Ledger>(
    survey: &mut Survey<L>,
    paper: Opening,
    buffer: &mut [u8],
    place: usize,
) -> Result<(Opening, Refusal), Fail>
    ensures { IfOk result (λ a. (a.0 ≡ paper) × (view L.Evidence L.Ledger.own survey.new ≡ view L.Evidence L.Ledger.own survey.old)) }
{
    match survey.profile(paper, buffer, place) {
        Ok((closing, _)) => {
            put_away(survey, Paper::Closes(closing));
            Err(Fail::new("a profile is written"))
        }
        Err(back) => Ok(back),
    }
}

// The refusal of a call, if it was refused.
fn refusal<T: Drop>(answer: Result<T, Refusal>) -> Option<Refusal> {
    answer.err()
}

/// The refusals of what an open issue does not admit: to enlist, share, part, resolve and begin.
pub fn meanwhile<L: Ledger>(survey: &mut Survey<L>) -> [Option<Refusal>; 5]
    requires { idle (view L.Evidence L.Ledger.own survey.old).state ≡ false }
    ensures { view L.Evidence L.Ledger.own survey.new ≡ view L.Evidence L.Ledger.own survey.old }
{
    [
        refusal(survey.enlist(700)),
        refusal(survey.share(0, 1)),
        refusal(survey.part(0, 1)),
        refusal(survey.resolve()),
        refusal(begin_and_withdraw(survey)),
    ]
}

//! The issue of the two files.

ghost use Rattle.worked.specs.Issue.{Ready, Rightful, IssueRight, WithdrawRight};

use super::answers::Lengths;
use evidence::{Ledger, Refusal};
use survey::{Paper, Survey};

// Writes the profile at the beginning of the buffer and the table after it. Where there is no room the issue is withdrawn.
pub(crate) fn issue<L: Ledger>(
    survey: &mut Survey<L>,
    buffer: &mut [u8],
) -> Result<Lengths, Refusal>
    requires { Ready L.Evidence L.Ledger.own survey.old }
    ensures { IssueRight L.Evidence L.Ledger.own survey.old buffer.old buffer.new result survey.new }
{
    let opening = survey.begin()?;
    match survey.profile(opening, buffer, 0) {
        Ok((closing, profile)) => match survey.table(closing, buffer, profile) {
            Ok(table) => Ok(Lengths { profile, table }),
            Err((closing, refusal)) => {
                withdraw(survey, Paper::Closes(closing));
                Err(refusal)
            }
        },
        Err((opening, refusal)) => {
            withdraw(survey, Paper::Opens(opening));
            Err(refusal)
        }
    }
}

// Withdraws the paper of the open issue.
fn withdraw<L: Ledger>(survey: &mut Survey<L>, paper: Paper)
    requires { Rightful L.Evidence L.Ledger.own survey.old paper }
    ensures { WithdrawRight L.Evidence L.Ledger.own survey.old survey.new }
{
    // by the law only a wrong paper is handed back
    survey.withdraw(paper).unwrap();
}

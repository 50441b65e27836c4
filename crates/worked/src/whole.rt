//! The whole list of calls.

ghost use Rattle.std.specs.Prelude.{◌≡◌};
ghost use Rattle.worked.specs.Deeds.{the_marks, the_tellings};
ghost use Rattle.worked.specs.Files.{Issued};

use super::answers::Answers;
use super::asking::ask;
use super::issuing::issue;
use super::marking::mark;
use evidence::Ledger;
use survey::Survey;

/// Takes a rig of two baselines that share through a survey with its first issue, on a ledger of any kind. What each call
/// answers is the same for every kind, and so are the bytes of the two files: they stand at the beginning of the buffer, where
/// it has room for them, and else the issue is withdrawn.
pub fn two_baselines<L: Ledger + Drop>(number: u16, ledger: L, buffer: &mut [u8]) -> Answers
    ensures marks { result.marks ≡ the_marks }
    ensures tellings { result.tellings ≡ the_tellings }
    ensures lengths { Issued number buffer.old buffer.new result.lengths }
{
    let mut survey = Survey::open(number, ledger);
    let marks = mark(&mut survey);
    let tellings = ask(&mut survey);
    let lengths = issue(&mut survey, buffer);
    Answers {
        marks,
        tellings,
        lengths,
    }
}

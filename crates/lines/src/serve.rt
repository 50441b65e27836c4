//! A line, and the reply to it.

ghost use Rattle.std.specs.Prelude.{◌<◌, ◌≤◌, length, IfOk};
ghost use Rattle.lines.specs.Served.{Served, Answered, Lined};

use super::fault::{Fault, TextFault};
use super::issue::issue;
use super::reply::{REPLY, put_no, put_ok};
use super::request::{Request, read_request};
use evidence::{Ledger, Refusal};
use files::Field;
use survey::Survey;

/// Answers a line, its last byte 10 with it, by calls on a survey: writes the reply from the buffer's start and answers its
/// length, for a refusal too. The reply to an accepted line is `ok` and the answers, or for `issue` its two files alone; that
/// to a refused line is `no,line,number,detail,layer`, and the survey is then as it was. Bytes past the reply are not touched.
/// Only a buffer of fewer than 4,096 bytes is answered as a refusal, with 1, and then nothing is done.
pub fn line<L: Ledger>(
    survey: &mut Survey<L>,
    bytes: &[u8],
    number: u16,
    reply: &mut [u8],
) -> Result<usize, Fault>
    ensures replied { Lined L.Evidence L.Ledger.own survey.old bytes.now number reply.old reply.new result survey.new }
    ensures within { IfOk result (λ n. n ≤ length reply.old) }
{
    let reply = reply
        .first_chunk_mut::<REPLY>()
        .ok_or(TextFault::ShortReply)?;
    match answer(survey, bytes, reply) {
        Ok(length) => Ok(length),
        Err(fault) => Ok(put_no(reply, number, fault)),
    }
}

// Answers the bytes of a line. Where they are refused, nothing is written.
fn answer<L: Ledger>(
    survey: &mut Survey<L>,
    bytes: &[u8],
    reply: &mut [u8; REPLY],
) -> Result<usize, Fault>
    ensures { Answered L.Evidence L.Ledger.own survey.old bytes.now reply.old reply.new result survey.new }
{
    let request = read_request(bytes)?;
    Ok(serve(survey, request, reply)?)
}

// Makes the calls of a request, and replies where they are accepted.
fn serve<L: Ledger>(
    survey: &mut Survey<L>,
    request: Request,
    reply: &mut [u8; REPLY],
) -> Result<usize, Refusal>
    ensures { Served L.Evidence L.Ledger.own survey.old request reply.old reply.new result survey.new }
{
    match request {
        Request::Enlist(span) => {
            let baseline = survey.enlist(span)?;
            Ok(put_ok(reply, &[Field::Number(baseline as u16)]))
        }
        Request::Share(i, j) => {
            let changed = survey.share(usize::from(i), usize::from(j))?;
            Ok(put_ok(reply, &[Field::Number(u16::from(changed))]))
        }
        Request::Part(i, j) => {
            let changed = survey.part(usize::from(i), usize::from(j))?;
            Ok(put_ok(reply, &[Field::Number(u16::from(changed))]))
        }
        Request::Resolve => {
            let found = survey.resolve()?;
            let answers = [
                Field::Number(found.imagers as u16),
                Field::Number(found.doubtful as u16),
            ];
            Ok(put_ok(reply, &answers))
        }
        Request::Issue => issue(survey, reply),
    }
}

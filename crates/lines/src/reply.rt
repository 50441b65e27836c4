//! What is replied to a line, in bytes.

ghost use Rattle.std.specs.Prelude.{◌<◌, ◌≤◌, length, codes};
ghost use Rattle.files.specs.Field.{line_of};
ghost use Rattle.files.specs.Writing.{Puts};
ghost use Rattle.lines.specs.Faults.{detail_of};
ghost use Rattle.lines.specs.Replies.{no_line};

use super::fault::Fault;
use files::{Field, write_line};

/// How many bytes a reply may have: more than the longest.
pub const REPLY: usize = 4096;

// Writes a line at the start of the reply, and answers how many bytes it has.
fn put_reply(reply: &mut [u8; REPLY], word: &[u8], fields: &[Field]) -> usize
    requires brief { length word.now ≤ 2 }
    requires few { length fields.now ≤ 4 }
    ensures told { Puts reply.old reply.new 0 result (line_of word.now fields.now) }
    ensures short { result ≤ 4096 }
{
    write_line(word, fields, reply, 0).unwrap()
}

/// Replies `ok` and what is answered.
pub fn put_ok(reply: &mut [u8; REPLY], answers: &[Field]) -> usize
    requires { length answers.now ≤ 4 }
    ensures { Puts reply.old reply.new 0 result (line_of (codes "ok") answers.now) }
{
    put_reply(reply, b"ok", answers)
}

/// Replies that a line, told by its number, is refused.
pub fn put_no(reply: &mut [u8; REPLY], number: u16, fault: Fault) -> usize
    requires { detail_of fault < 65536 }
    ensures told { Puts reply.old reply.new 0 result (no_line number fault) }
    ensures short { result ≤ 4096 }
{
    let fields = [
        Field::Number(number),
        Field::Number(u16::from(fault.number())),
        Field::Number(fault.detail() as u16),
        Field::Letter(fault.layer()),
    ];
    put_reply(reply, b"no", &fields)
}

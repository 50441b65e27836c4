//! The entry for C, and the same as a call with a result.

ghost use Rattle.std.specs.Prelude.{◌≡◌, ℕ, ◌^◌, ◌<◌, Result as Answer};
ghost use Rattle.evidence.specs.declared.refusal.Refusal.{Refusal as Reason};
ghost use Rattle.host.specs.Entered.{Entered, packed};

use super::output::write_entries;
use super::square_form::FullSquare;
use evidence::{Refusal, Square};
use layout::place;
use theory::Record;

/// Places a square of n rows of n bytes, writes three bytes for each baseline (lower imager, higher imager, 1 if doubtful,
/// else 0), and answers the number of imagers. Refused, with `out` untouched, with 6 where n is above 64; with 7 where there
/// are not n × n bytes; with 8 and its place where a byte is not 0 or 1, not zero on the diagonal or not equal to its mirror;
/// with 18 and the lowest baseline whose cluster has no layout; with 19 and 3n where `out` has less than 3n bytes.
pub fn place_square(n: u64, square: &[u8], out: &mut [u8]) -> Result<usize, Refusal>
    ensures entered { Entered n square.now out.old out.new result }
    ensures small { packed result < 2 ^ 32 }
{
    let full = FullSquare::of(n, square)?;
    if let Some(at) = full.first_wrong() {
        return Err(Refusal::SquareByte(at));
    }
    let mut told = Record::new();
    let imagers = place(&Square { n, bytes: square }, &mut told)?;
    if out.len() < 3 * full.n {
        return Err(Refusal::NoRoom(3 * full.n));
    }
    write_entries(out, &told, full.n);
    Ok(imagers)
}

/// `place_square` for C. Answers 256 × imagers, or the refusal's number + 256 × its detail.
#[unsafe(no_mangle)]
pub extern "C" fn tuvelanni_place_square(n: u64, square: &[u8], out: &mut [u8]) -> u64
    ensures { (a : Answer ℕ Reason) × (result ≡ packed a) × Entered n square.now out.old out.new a }
{
    match place_square(n, square, out) {
        Ok(imagers) => 256 * imagers as u64,
        Err(refusal) => u64::from(refusal.number()) + 256 * refusal.detail() as u64,
    }
}

//! The static library for C: the entry of `host` under its name in C. docs/c-host.md tells how a C program links it.

#![tactic(auto)]

ghost use Rattle.std.specs.Prelude.{◌≡◌, ℕ, Result as Answer};
ghost use Rattle.evidence.specs.declared.refusal.Refusal.{Refusal as Reason};
ghost use Rattle.host.specs.Entered.{Entered, packed};

/// `place_square` for C. Answers 256 × imagers, or the refusal's number + 256 × its detail.
#[unsafe(no_mangle)]
pub extern "C" fn tuvelanni_place_square(n: u64, square: &[u8], out: &mut [u8]) -> u64
    ensures { (a : Answer ℕ Reason) × (result ≡ packed a) × Entered n square.now out.old out.new a }
{
    host::tuvelanni_place_square(n, square, out)
}

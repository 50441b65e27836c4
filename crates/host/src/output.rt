//! The output: three bytes for each baseline.

ghost use Rattle.std.specs.Prelude.{◌≡◌, ◌*◌, ◌≤◌, ◌++◌, length, drop};
ghost use Rattle.host.specs.Entered.{three_of, told};

use theory::{Entry, Record};

// The three bytes of a baseline.
fn three_bytes(entry: &Entry) -> [u8; 3]
    ensures { result ≡ three_of entry.now }
{
    [entry.lower, entry.higher, u8::from(entry.doubtful)]
}

/// Writes the three bytes of each of the first n baselines.
pub fn write_entries(out: &mut [u8], told_by: &Record, n: usize)
    requires few { n ≤ 64 }
    requires room { 3 * n ≤ length out.old }
    ensures { out.new ≡ told told_by.now n ++ drop (3 * n) out.old }
{
    for (i, entry) in told_by.entries[..n].iter().enumerate() {
        out[3 * i..3 * i + 3].copy_from_slice(&three_bytes(entry));
    }
}

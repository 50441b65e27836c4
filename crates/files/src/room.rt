//! Whether there is room in a buffer.

ghost use Rattle.std.specs.Prelude.{◌≡◌, ◌+◌, length, nat_le};

// Whether `need` bytes from `at` on lie in the buffer. The sum of the two may be too large to form.
pub(crate) fn has_room(out: &[u8], at: usize, need: usize) -> bool
    ensures { result ≡ nat_le (at + need) (length out.now) }
{
    out.len().checked_sub(at).is_some_and(|room| need <= room)
}

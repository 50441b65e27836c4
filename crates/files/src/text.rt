//! What has a text, and how that is measured and written.

ghost use Rattle.std.specs.Prelude.{◌≡◌, ℕ, ◌<◌, ◌≤◌, ◌^◌, List, length};
ghost use Rattle.files.specs.Writing.{Written};

use super::pen::Pen;
use super::room::has_room;
use super::sink::Sink;
use super::tally::Tally;
use evidence::Refusal;

// What has a text, told in one way to every sink.
pub(crate) trait Text {
    // The bytes of the text.
    ghost text: { Self → List ℕ };

    // How many it has at most.
    ghost most: { Self → ℕ };

    // Tells the text.
    fn tell<S: Sink>(&self, sink: &mut S)
        requires { S.HasRoom sink.old (length (text self.now)) }
        ensures told { S.Took sink.old (text self.now) sink.new }
        ensures few { length (text self.now) ≤ most self.now };
}

// How many bytes a text has.
pub(crate) fn text_len<T: Text>(text: &T) -> usize
    requires { T.most text.now < 2 ^ 64 }
    ensures same { result ≡ length (T.text text.now) }
    ensures few { result ≤ T.most text.now }
{
    let mut tally = Tally::default();
    text.tell(&mut tally);
    tally.bytes
}

// Writes a text from `at` on, and answers how many bytes it has. Refused where it would pass the buffer's end; the buffer is
// then as it was.
pub(crate) fn write<T: Text>(text: &T, out: &mut [u8], at: usize) -> Result<usize, Refusal>
    requires { T.most text.now < 2 ^ 64 }
    ensures written { Written (T.text text.now) out.old out.new at result }
    ensures few { length (T.text text.now) ≤ T.most text.now }
{
    let need = text_len(text);
    if !has_room(out, at, need) {
        return Err(Refusal::NoRoom(need));
    }
    text.tell(&mut Pen { out, at });
    Ok(need)
}

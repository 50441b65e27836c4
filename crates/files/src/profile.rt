//! The lens profile.

ghost use Rattle.std.specs.Prelude.{◌≡◌, ◌+◌, ◌*◌, length};
ghost use Rattle.files.specs.Contents.{imager_of, profile_of};
ghost use Rattle.files.specs.Writing.{Written};

use super::contents::Contents;
use super::line::tell_line;
use super::sink::Sink;
use super::text::{Text, text_len, write};
use evidence::Refusal;

// The lines of an imager.
#[derive(Clone, Copy)]
struct Imager<'a> {
    contents: &'a Contents<'a>,
    number: u8,
}

impl Text for Imager<'_> {
    ghost text = { λ imager. imager_of imager.contents.now imager.number };

    ghost most = { λ _. 2048 };

    fn tell<S: Sink>(&self, sink: &mut S) {
        for i in 0..self.contents.baselines() {
            let baseline = self.contents.baseline(i);
            if baseline.has(self.number) {
                tell_line(b"L", &baseline.lens(self.number), sink);
            }
        }
    }
}

// All lines.
#[derive(Clone, Copy)]
struct Profile<'a> {
    contents: &'a Contents<'a>,
}

impl Text for Profile<'_> {
    ghost text = { λ profile. profile_of profile.contents.now };

    ghost most = { λ _. 32 + 2048 * 255 };

    fn tell<S: Sink>(&self, sink: &mut S) {
        tell_line(b"P", &self.contents.profile_head(), sink);
        for number in 0..self.contents.imagers {
            Imager {
                contents: self.contents,
                number,
            }
            .tell(sink);
        }
    }
}

/// How many bytes the lens profile has.
pub fn profile_len(contents: &Contents<'_>) -> usize
    ensures { result ≡ length (profile_of contents.now) }
{
    text_len(&Profile { contents })
}

/// Writes the lens profile from `at` on, and answers how many bytes it has. Refused with 19 where it would pass the buffer's
/// end; the buffer is then as it was.
pub fn write_profile(contents: &Contents<'_>, out: &mut [u8], at: usize) -> Result<usize, Refusal>
    ensures { Written (profile_of contents.now) out.old out.new at result }
{
    write(&Profile { contents }, out, at)
}

//! Reads a drawing as text: one baseline to a line, two imager numbers from 0 to 255 with a space between.

use super::ends::Ends;

// The number that the bytes spell in digits alone, up to 255.
fn number_of(digits: &[u8]) -> Option<u8> {
    let value = digits.iter().try_fold(0u8, |value, byte| {
        let digit = byte.checked_sub(b'0').filter(|digit| *digit < 10)?;
        value.checked_mul(10)?.checked_add(digit)
    });
    value.filter(|_| !digits.is_empty())
}

// The two numbers of a line.
fn ends_in(line: &[u8]) -> Option<Ends> {
    let line = line.strip_suffix(b"\n").unwrap_or(line);
    let mut words = line.splitn(2, |byte| *byte == b' ');
    Some((number_of(words.next()?)?, number_of(words.next()?)?))
}

/// The drawing that the text tells. A line that is not two numbers is named in what is printed, and passed over.
pub fn drawing_of(rt: &HostRuntime, text: &[u8]) -> anyhow::Result<Vec<Ends>> {
    let mut drawing = Vec::new(rt.alloc());
    let lines = text.split_inclusive(|byte| *byte == b'\n');
    for (i, line) in lines.enumerate() {
        match ends_in(line) {
            Some(ends) => drawing.push(ends)?,
            None => println!(rt;
                "line {}: not two numbers from 0 to 255 with a space between",
                i.saturating_add(1)
            )?,
        }
    }
    Ok(drawing)
}

//! A seeded generator of numbers, and random drawings.

use super::ends::Ends;
use std::alloc::{AllocError, Global};

/// A generator: the same seed gives the same numbers.
#[derive(Drop)]
pub struct Random {
    state: u64,
}

impl Random {
    pub fn new(seed: u64) -> Self {
        Random { state: seed | 1 }
    }

    // The next word (xorshift).
    fn word(&mut self) -> u64 {
        let mut x = self.state;
        x ^= x << 13;
        x ^= x >> 7;
        x ^= x << 17;
        self.state = x;
        x.wrapping_mul(0x2545_f491_4f6c_dd1d)
    }

    /// A number below `bound`, or 0 where that is 0.
    pub fn below(&mut self, bound: u8) -> u8 {
        if bound == 0 {
            return 0;
        }
        ((self.word() >> 33) % u64::from(bound)) as u8
    }
}

/// Draws at most `wanted` baselines between `imagers` imagers, no two alike.
pub fn draw(
    alloc: Global,
    random: &mut Random,
    wanted: usize,
    imagers: u8,
) -> Result<Vec<Ends>, AllocError> {
    let mut drawing = Vec::new(alloc);
    for _turn in 0..1000 {
        let (a, b) = (random.below(imagers), random.below(imagers));
        if drawing.len() < wanted
            && a != b
            && !drawing.contains(&(a, b))
            && !drawing.contains(&(b, a))
        {
            drawing.push((a, b))?;
        }
    }
    Ok(drawing)
}

//! The two imagers of a baseline, and what baselines have in common by them.

use std::alloc::{AllocError, Global};

/// The two imagers of a baseline.
pub type Ends = (u8, u8);

fn stands(imager: u8, ends: Ends) -> bool {
    imager == ends.0 || imager == ends.1
}

/// How many imagers of the one are imagers of the other.
pub fn in_common(d: Ends, e: Ends) -> u8 {
    u8::from(stands(d.0, e)) + u8::from(stands(d.1, e))
}

/// Whether three baselines have a common imager.
pub fn has_trio(d: Ends, e: Ends, f: Ends) -> bool {
    (stands(d.0, e) && stands(d.0, f)) || (stands(d.1, e) && stands(d.1, f))
}

/// The drawing of baselines, two bytes to each.
pub fn bytes_of(alloc: Global, drawing: &[Ends]) -> Result<Vec<u8>, AllocError> {
    drawing
        .iter()
        .flat_map(|ends| [ends.0, ends.1])
        .collect(alloc)
}

//! The order of preference among the starts of a cluster.

ghost use Rattle.std.specs.Iterator.{YieldsFirst, item_count};
ghost use Rattle.layout.specs.Order.{starts_left};

use bitset::BaselineSet;

// The starts that were not tried yet.
#[derive(Drop)]
pub enum Starts {
    // The one that crosses none, and then those with these crosses.
    All(BaselineSet),
    // Those with these crosses, the highest first.
    Crossing(BaselineSet),
}

impl Iterator for Starts {
    type Item = Option<usize>;

    ghost next_gives = { YieldsFirst starts_left };

    ghost remaining = { item_count starts_left };

    fn next(&mut self) -> Option<Option<usize>> {
        match *self {
            Starts::All(crosses) => {
                *self = Starts::Crossing(crosses);
                Some(None)
            }
            Starts::Crossing(crosses) => {
                let x = crosses.highest()?;
                *self = Starts::Crossing(crosses.without(x));
                Some(Some(x))
            }
        }
    }
}

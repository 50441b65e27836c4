//! The questions that every call asks of two numbers.

ghost use Rattle.std.specs.Prelude.{◌≡◌, ◌<◌, ◌≢◌, OnOk};
ghost use Rattle.evidence.specs.Refusals.{Asked, pair_questions};

use super::refusal::Refusal;

/// Asks whether two numbers are a pair of so many baselines. Refused with 12 where one is not below the count, else with 13
/// where the two are equal.
pub fn ask_pair(count: usize, i: usize, j: usize) -> Result<(), Refusal>
    ensures asked { Asked (pair_questions count i j) result }
    ensures pair { OnOk result ((i < count) × (j < count) × (i ≢ j)) }
{
    if i >= count || j >= count {
        return Err(Refusal::PastCount);
    }
    if i == j {
        return Err(Refusal::SameBaseline);
    }
    Ok(())
}

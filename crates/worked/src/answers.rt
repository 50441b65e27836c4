//! What the calls answer.

use evidence::Refusal;
use survey::Resolution;

/// What enlisting two baselines and marking them answered.
#[derive(Clone, Copy)]
pub struct Marks {
    pub first: Result<usize, Refusal>,
    pub second: Result<usize, Refusal>,
    pub shared: Result<bool, Refusal>,
    pub again: Result<bool, Refusal>,
}

/// What the survey told: the ends before it was resolved, how it was resolved, and what it told then.
#[derive(Clone, Copy)]
pub struct Tellings {
    pub early: Result<(u8, u8), Refusal>,
    pub resolved: Result<Resolution, Refusal>,
    pub first: Result<(u8, u8), Refusal>,
    pub second: Result<(u8, u8), Refusal>,
    pub common: Result<Option<u8>, Refusal>,
    pub doubtful: Result<bool, Refusal>,
}

/// How many bytes the two files have.
#[derive(Clone, Copy, PartialEq, Eq, Debug)]
pub struct Lengths {
    pub profile: usize,
    pub table: usize,
}

/// What all the calls answered.
#[derive(Clone, Copy)]
pub struct Answers {
    pub marks: Marks,
    pub tellings: Tellings,
    pub lengths: Result<Lengths, Refusal>,
}

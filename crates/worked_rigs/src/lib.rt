//! The worked rigs: which baselines share an imager in each, and what comes of it.

#![tactic(auto)]

use evidence::Refusal;

/// The layout of a rig.
#[derive(Clone, Copy)]
pub struct Laid<'a> {
    /// How many imagers there are.
    pub imagers: u8,
    /// The two imagers of each baseline, the lower number first.
    pub ends: &'a [(u8, u8)],
    /// Whether the baselines are doubtful, all or none.
    pub doubtful: bool,
}

/// A rig.
#[derive(Clone, Copy)]
pub struct Rig {
    /// How many baselines there are.
    pub count: usize,
    /// The pairs that share, the lower number first.
    pub sharing: &'static [(usize, usize)],
    /// The layout, or why there is none.
    pub outcome: Result<Laid<'static>, Refusal>,
}

/// No baseline; one; three in a triangle and in a path; one with three that do not share; four with one pair apart; five with
/// one pair apart; a lone baseline and one with three that do not share; one that shares with a ring of four.
pub const RIGS: [Rig; 9] = [
    Rig {
        count: 0,
        sharing: &[],
        outcome: Ok(Laid {
            imagers: 0,
            ends: &[],
            doubtful: false,
        }),
    },
    Rig {
        count: 1,
        sharing: &[],
        outcome: Ok(Laid {
            imagers: 2,
            ends: &[(0, 1)],
            doubtful: false,
        }),
    },
    Rig {
        count: 3,
        sharing: &[(0, 1), (0, 2), (1, 2)],
        outcome: Ok(Laid {
            imagers: 4,
            ends: &[(0, 1), (0, 2), (0, 3)],
            doubtful: true,
        }),
    },
    Rig {
        count: 3,
        sharing: &[(0, 1), (1, 2)],
        outcome: Ok(Laid {
            imagers: 4,
            ends: &[(0, 1), (0, 2), (2, 3)],
            doubtful: false,
        }),
    },
    Rig {
        count: 4,
        sharing: &[(0, 1), (0, 2), (0, 3)],
        outcome: Err(Refusal::NoLayout(0)),
    },
    Rig {
        count: 4,
        sharing: &[(0, 1), (0, 2), (0, 3), (1, 2), (1, 3)],
        outcome: Ok(Laid {
            imagers: 4,
            ends: &[(0, 1), (0, 2), (0, 3), (1, 2)],
            doubtful: true,
        }),
    },
    Rig {
        count: 5,
        sharing: &[
            (0, 1),
            (0, 2),
            (0, 3),
            (0, 4),
            (1, 2),
            (1, 3),
            (1, 4),
            (2, 3),
            (2, 4),
        ],
        outcome: Err(Refusal::NoLayout(0)),
    },
    Rig {
        count: 5,
        sharing: &[(1, 2), (1, 3), (1, 4)],
        outcome: Err(Refusal::NoLayout(1)),
    },
    Rig {
        count: 5,
        sharing: &[
            (0, 1),
            (0, 2),
            (0, 3),
            (0, 4),
            (1, 2),
            (2, 3),
            (3, 4),
            (1, 4),
        ],
        outcome: Ok(Laid {
            imagers: 4,
            ends: &[(0, 1), (0, 2), (0, 3), (1, 3), (1, 2)],
            doubtful: true,
        }),
    },
];

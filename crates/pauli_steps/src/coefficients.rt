// The coefficients of rotations and of projectors.
ghost use Rattle.std.specs.Prelude.{◌≡◌, ◌<◌};
ghost use Rattle.pauli_program.specs.Operators.{turn_by, onto};
ghost use Rattle.pauli_steps.specs.Inner.Rows.{pair_of};

use scalar::{ONE, Scalar, ZERO};

// The numbers before 1 and before an axis, as scalars in lowest form.
#[derive(Clone, Copy)]
pub struct Pair {
    pub own: Scalar,
    pub other: Scalar,
}

const HALF: Scalar = Scalar {
    n: [1, 0, 0, 0],
    e: 1,
};

// Of rotations by 0 to 7 eighths.
static TURNINGS: [Pair; 8] = [
    Pair {
        own: ONE,
        other: ZERO,
    },
    Pair {
        own: Scalar {
            n: [2, 1, 0, 1],
            e: 2,
        },
        other: Scalar {
            n: [2, -1, 0, -1],
            e: 2,
        },
    },
    Pair {
        own: Scalar {
            n: [1, 0, 1, 0],
            e: 1,
        },
        other: Scalar {
            n: [1, 0, -1, 0],
            e: 1,
        },
    },
    Pair {
        own: Scalar {
            n: [2, -1, 0, 1],
            e: 2,
        },
        other: Scalar {
            n: [2, 1, 0, -1],
            e: 2,
        },
    },
    Pair {
        own: ZERO,
        other: ONE,
    },
    Pair {
        own: Scalar {
            n: [2, -1, 0, -1],
            e: 2,
        },
        other: Scalar {
            n: [2, 1, 0, 1],
            e: 2,
        },
    },
    Pair {
        own: Scalar {
            n: [1, 0, -1, 0],
            e: 1,
        },
        other: Scalar {
            n: [1, 0, 1, 0],
            e: 1,
        },
    },
    Pair {
        own: Scalar {
            n: [2, 1, 0, -1],
            e: 2,
        },
        other: Scalar {
            n: [2, -1, 0, 1],
            e: 2,
        },
    },
];

// Onto outcome 0, and onto outcome 1.
static PROJECTINGS: [Pair; 2] = [
    Pair {
        own: HALF,
        other: HALF,
    },
    Pair {
        own: HALF,
        other: Scalar {
            n: [-1, 0, 0, 0],
            e: 1,
        },
    },
];

// Kept: inlined, so that a caller's constant k gives it constants.
// Of a rotation by k eighths.
#[inline(always)]
pub fn turning(k: u32) -> &'static Pair
    requires { k < 8 }
    ensures { result.now ≡ pair_of (turn_by k) }
{
    &TURNINGS[k as usize]
}

// Of the projector onto outcome v.
// Kept: v is the number of an operator, 0 or 1, as in branches::outcome; a bool or an enum would be made of it in each clause.
pub fn projecting(v: u32) -> &'static Pair
    ensures { result.now ≡ pair_of (onto v) }
{
    if v == 0 {
        return &PROJECTINGS[0];
    }
    &PROJECTINGS[1]
}

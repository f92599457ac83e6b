// The two-by-two matrices of the kinds that split nothing: phases by the powers of ω, all others by name.
// Kept (switches): `phase_of` and `place` name the matrix of each kind, and no caller chooses it.
ghost use Rattle.std.specs.Prelude.{◌≡◌, true, ◌<◌};
ghost use Rattle.gate.specs.Gate.{formed};
ghost use Rattle.gate.specs.Kinds.{number_of};
ghost use Rattle.gate.specs.Inner.Words.{gate_of};
ghost use Rattle.gate.specs.Inner.Tables.{phase_of, phase_core, place};

use super::judge::GateWords;
use super::kinds::Kind;
use super::rows::Row;
use scalar::Scalar;
use scalar::powers::power;

// The rows of a two-by-two matrix, as numerators over 2^e: where the target's bit is 0, and where it is 1.
#[derive(Clone, Copy)]
pub struct Core {
    pub low: Row,
    pub high: Row,
    pub e: u32,
}

// h: 1/√2 (1 1; 1 −1)
pub const H: Core = Core {
    low: Row {
        own: [0, 1, 0, 0],
        other: [0, 1, 0, 0],
    },
    high: Row {
        own: [0, -1, 0, 0],
        other: [0, 1, 0, 0],
    },
    e: 1,
};

// x
pub const X: Core = Core {
    low: Row {
        own: [0; 4],
        other: [1, 0, 0, 0],
    },
    high: Row {
        own: [0; 4],
        other: [1, 0, 0, 0],
    },
    e: 0,
};

// y: (0 −i; i 0)
pub const Y: Core = Core {
    low: Row {
        own: [0; 4],
        other: [0, 0, -1, 0],
    },
    high: Row {
        own: [0; 4],
        other: [0, 0, 1, 0],
    },
    e: 0,
};

// sx: 1/2 (1 + i, 1 − i; 1 − i, 1 + i)
pub const SX: Core = Core {
    low: Row {
        own: [1, 0, 1, 0],
        other: [1, 0, -1, 0],
    },
    high: Row {
        own: [1, 0, 1, 0],
        other: [1, 0, -1, 0],
    },
    e: 1,
};

// The phase diag(1, ω^k).
#[inline(always)]
pub fn phase_core(k: u32) -> Core
    ensures { result ≡ phase_core k }
{
    let Scalar { n, e } = power(k);
    Core {
        low: Row {
            own: [1 << e, 0, 0, 0],
            other: [0; 4],
        },
        high: Row {
            own: n,
            other: [0; 4],
        },
        e,
    }
}

// The k of a kind whose matrix is the phase diag(1, ω^k); rz is given its own. A swap has the identity.
fn phase_of(kind: Kind, k: u32) -> Option<u32>
    ensures { result ≡ phase_of (number_of kind) k }
{
    match kind {
        Kind::Z | Kind::Cz | Kind::Ccz => Some(4),
        Kind::S => Some(2),
        Kind::Sdg => Some(6),
        Kind::T => Some(1),
        Kind::Tdg => Some(7),
        Kind::Rz => Some(k),
        Kind::Swap | Kind::Cswap => Some(0),
        _ => None,
    }
}

// Where the matrix of another kind stands: of h, x, y or sx. The kinds that split branches or are not supported are not asked.
fn place(kind: Kind) -> usize
    ensures value { result ≡ place (number_of kind) }
    ensures inside { result < 4 }
{
    match kind {
        Kind::H | Kind::Ch => 0,
        Kind::X | Kind::Cnot | Kind::Ccx => 1,
        Kind::Y | Kind::Cy => 2,
        _ => 3,
    }
}

// The k of a gate whose matrix is the phase diag(1, ω^k).
#[inline(always)]
pub fn phase_at(g: GateWords) -> Option<u32>
    requires { formed (gate_of g) ≡ true }
    ensures { result ≡ phase_of g.kind g.k }
{
    let Some(kind) = g.known_kind() else {
        unreachable!()
    };
    phase_of(kind, g.k)
}

// Where the matrix of another gate stands.
#[inline(always)]
pub fn place_at(g: GateWords) -> usize
    requires { formed (gate_of g) ≡ true }
    ensures value { result ≡ place g.kind }
    ensures inside { result < 4 }
{
    let Some(kind) = g.known_kind() else {
        unreachable!()
    };
    place(kind)
}

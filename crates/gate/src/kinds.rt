// The kinds of gates, and their numbers.
// Kept (kinds, switches): the arms of try_from are the only place where the numbers of the C interface stand; all other code matches on kinds.
ghost use Rattle.std.specs.Prelude.{◌≡◌, ◌≤◌};
ghost use Rattle.gate.specs.Gate.{arity};
ghost use Rattle.gate.specs.Kinds.{number_of, Names};

// The kinds, in the order of their numbers.
#[derive(Clone, Copy)]
pub enum Kind {
    H,
    X,
    Z,
    S,
    Sdg,
    T,
    Tdg,
    Rz,
    Cnot,
    Cz,
    Ccx,
    Ccz,
    Measure,
    Reset,
    P,
    Y,
    Sx,
    Rx,
    Ry,
    Swap,
    Cy,
    Cp,
    Crx,
    Cry,
    Crz,
    Ch,
    Cswap,
}

// A number that no kind has.
#[derive(Clone, Copy)]
pub struct NoKind(pub u32);

impl TryFrom<u32> for Kind {
    type Error = NoKind;

    ghost try_from_gives = { Names };

    fn try_from(number: u32) -> Result<Self, NoKind> {
        match number {
            0 => Ok(Kind::H),
            1 => Ok(Kind::X),
            2 => Ok(Kind::Z),
            3 => Ok(Kind::S),
            4 => Ok(Kind::Sdg),
            5 => Ok(Kind::T),
            6 => Ok(Kind::Tdg),
            7 => Ok(Kind::Rz),
            8 => Ok(Kind::Cnot),
            9 => Ok(Kind::Cz),
            10 => Ok(Kind::Ccx),
            11 => Ok(Kind::Ccz),
            12 => Ok(Kind::Measure),
            13 => Ok(Kind::Reset),
            14 => Ok(Kind::P),
            15 => Ok(Kind::Y),
            16 => Ok(Kind::Sx),
            17 => Ok(Kind::Rx),
            18 => Ok(Kind::Ry),
            19 => Ok(Kind::Swap),
            20 => Ok(Kind::Cy),
            21 => Ok(Kind::Cp),
            22 => Ok(Kind::Crx),
            23 => Ok(Kind::Cry),
            24 => Ok(Kind::Crz),
            25 => Ok(Kind::Ch),
            26 => Ok(Kind::Cswap),
            _ => Err(NoKind(number)),
        }
    }
}

impl From<Kind> for u32 {
    ghost from_gives = { λ kind n. n ≡ number_of kind };

    fn from(kind: Kind) -> u32 {
        kind as u32
    }
}

impl Kind {
    // How many of the words a, b, c name qubits.
    pub fn arity(self) -> usize
        ensures value { result ≡ arity (number_of self) }
        ensures few { result ≤ 3 }
    {
        match self {
            Kind::Ccx | Kind::Ccz | Kind::Cswap => 3,
            Kind::Cnot
            | Kind::Cz
            | Kind::Swap
            | Kind::Cy
            | Kind::Cp
            | Kind::Crx
            | Kind::Cry
            | Kind::Crz
            | Kind::Ch => 2,
            _ => 1,
        }
    }
}

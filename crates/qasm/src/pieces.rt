// The pieces of all statements.
ghost use Rattle.std.specs.Prelude.{◌≡◌};
ghost use Rattle.qasm.specs.Inner.Pieces.{pieces_of, form_of};

// The registers: of the qubits, and of the classical bits.
#[derive(Clone, Copy)]
pub enum Register {
    Quantum,
    Classical,
}

// What stands at one place of a statement.
#[derive(Clone, Copy)]
pub enum Piece {
    // These bytes.
    Fixed(&'static [u8]),
    // The name of a register that is declared, and its size.
    Fresh(Register),
    Size(Register),
    // The name of a register that is used.
    Used(Register),
    // The number that is this word of the gate.
    Index(u8),
}

const OPEN: Piece = Piece::Fixed(b"[");

const CLOSE: Piece = Piece::Fixed(b"]");

const COMMA: Piece = Piece::Fixed(b",");

const END: Piece = Piece::Fixed(b";");

const Q: Piece = Piece::Used(Register::Quantum);

const A: Piece = Piece::Index(1);

const B: Piece = Piece::Index(2);

const C: Piece = Piece::Index(3);

// The text behind its header.
pub static TOP: [Piece; 9] = [
    Piece::Fixed(b"include"),
    Piece::Fixed(b"\"qelib1.inc\""),
    END,
    Piece::Fixed(b"qreg"),
    Piece::Fresh(Register::Quantum),
    OPEN,
    Piece::Size(Register::Quantum),
    CLOSE,
    END,
];

// The declaration of the classical register, behind its first word.
pub static CREG: [Piece; 5] = [
    Piece::Fresh(Register::Classical),
    OPEN,
    Piece::Size(Register::Classical),
    CLOSE,
    END,
];

// Gates behind their names: on one qubit, on two and on three, and a measure.
static ONE: [Piece; 5] = [Q, OPEN, A, CLOSE, END];

static TWO: [Piece; 10] = [Q, OPEN, A, CLOSE, COMMA, Q, OPEN, B, CLOSE, END];

static THREE: [Piece; 15] = [
    Q, OPEN, A, CLOSE, COMMA, Q, OPEN, B, CLOSE, COMMA, Q, OPEN, C, CLOSE, END,
];

static MEASURED: [Piece; 10] = [
    Q,
    OPEN,
    A,
    CLOSE,
    Piece::Fixed(b"->"),
    Piece::Used(Register::Classical),
    OPEN,
    B,
    CLOSE,
    END,
];

// How the statement of a gate goes on behind its name.
#[derive(Clone, Copy)]
pub enum Form {
    One,
    Two,
    Three,
    Measured,
}

impl Form {
    pub fn pieces(self) -> &'static [Piece]
        ensures { pieces_of result.now ≡ form_of self }
    {
        match self {
            Form::One => &ONE,
            Form::Two => &TWO,
            Form::Three => &THREE,
            Form::Measured => &MEASURED,
        }
    }
}

// The names of the gates.
ghost use Rattle.std.specs.Prelude.{◌≡◌};
ghost use Rattle.qasm.specs.Forms.{table};
ghost use Rattle.qasm.specs.Inner.Pieces.{entry_named, shown};

use super::pieces::Form;
use gate::kinds::Kind;

// Each gate's name, its kind, and the form of its statement.
// Kept: the way back is `qasm_writer::printer::name_of`, a match whose names have the blank behind them; to search this table there would be no plainer.
static TABLE: [(&[u8], Kind, Form); 17] = [
    (b"x", Kind::X, Form::One),
    (b"y", Kind::Y, Form::One),
    (b"z", Kind::Z, Form::One),
    (b"h", Kind::H, Form::One),
    (b"s", Kind::S, Form::One),
    (b"sdg", Kind::Sdg, Form::One),
    (b"t", Kind::T, Form::One),
    (b"tdg", Kind::Tdg, Form::One),
    (b"cx", Kind::Cnot, Form::Two),
    (b"cz", Kind::Cz, Form::Two),
    (b"cy", Kind::Cy, Form::Two),
    (b"ch", Kind::Ch, Form::Two),
    (b"swap", Kind::Swap, Form::Two),
    (b"ccx", Kind::Ccx, Form::Three),
    (b"cswap", Kind::Cswap, Form::Three),
    (b"measure", Kind::Measure, Form::Measured),
    (b"reset", Kind::Reset, Form::One),
];

// Kept: `find` would answer the whole entry, the name with it, for a `map` to take apart.
// The kind of the gate with this name, and the form of its statement.
pub fn gate_named(word: &[u8]) -> Option<(Kind, Form)>
    ensures { shown word.now result ≡ entry_named word.now table }
{
    for &(name, kind, form) in &TABLE {
        if name == word {
            return Some((kind, form));
        }
    }
    None
}

// The bytes of a text, put one after the other into lent room.
// Kept (buffers): the number beside the bytes that open a bracket is put behind them: it is no length of them, and no place in them.
// Kept (together): a writer, or the words, with both counts, as `write_qasm` takes them; `put_head` puts one after the other, so that a struct of two counts would be made to be taken apart.
ghost use Rattle.std.specs.Prelude.{◌≡◌, ◌≤◌, length, MatchOption, Some, None};
ghost use Rattle.algebra.specs.Lists.{concat_map};
ghost use Rattle.gate.specs.Gate.{gates_of};
ghost use Rattle.gate.specs.Kinds.{number_of};
ghost use Rattle.gate.specs.Inner.Words.{gate_of};
ghost use Rattle.text.specs.Inner.Puts.{Puts};
ghost use Rattle.qasm.specs.Writing.{gate_text, written};
ghost use Rattle.qasm_writer.specs.Inner.Print.{name_of, indexed, qubit_if, others, head};

use gate::GATE;
use gate::judge::{GateWords, read_gate};
use gate::kinds::Kind;
use text::page::Writer;

// The name of a kind and the blank behind it; a kind may have none.
fn name_of(kind: Kind) -> Option<&'static [u8]>
    ensures { MatchOption result (name_of (number_of kind) ≡ None) (λ name. (name_of (number_of kind) ≡ Some name.now) × (length name.now ≤ 8)) }
{
    match kind {
        Kind::H => Some(b"h "),
        Kind::X => Some(b"x "),
        Kind::Z => Some(b"z "),
        Kind::S => Some(b"s "),
        Kind::Sdg => Some(b"sdg "),
        Kind::T => Some(b"t "),
        Kind::Tdg => Some(b"tdg "),
        Kind::Cnot => Some(b"cx "),
        Kind::Cz => Some(b"cz "),
        Kind::Ccx => Some(b"ccx "),
        Kind::Measure => Some(b"measure "),
        Kind::Reset => Some(b"reset "),
        Kind::Y => Some(b"y "),
        Kind::Swap => Some(b"swap "),
        Kind::Cy => Some(b"cy "),
        Kind::Ch => Some(b"ch "),
        Kind::Cswap => Some(b"cswap "),
        _ => None,
    }
}

// The name of a gate's kind and the blank behind it, where its kind has a name.
pub fn name(g: GateWords) -> Option<&'static [u8]>
    ensures { MatchOption result (name_of g.kind ≡ None) (λ name. (name_of g.kind ≡ Some name.now) × (length name.now ≤ 8)) }
{
    name_of(g.known_kind()?)
}

// A number in brackets, behind the bytes that open it.
fn put_indexed(out: &mut Writer<'_>, opening: &[u8], n: u32)
    ensures { Puts out.old (indexed opening.now n) out.new }
{
    out.put_all(opening);
    out.put_decimal(n as u64);
    out.put(b']');
}

// One more qubit, if there is one.
// Kept: an Option of a qubit would be made for each call from the same test, as `(2 <= count).then_some(g.b)`.
fn put_qubit(out: &mut Writer<'_>, used: bool, n: u32)
    ensures { Puts out.old (qubit_if used n) out.new }
{
    if used {
        put_indexed(out, b",q[", n);
    }
}

// The operands of a gate behind the first.
fn put_others(out: &mut Writer<'_>, g: GateWords)
    ensures { Puts out.old (others (gate_of g)) out.new }
{
    match g.bit() {
        Some(bit) => put_indexed(out, b"->c[", bit),
        None => {
            let count = g.qubit_count();
            put_qubit(out, 2 <= count, g.b);
            put_qubit(out, 3 <= count, g.c);
        }
    }
}

// The line of a gate; nothing where its kind has no name.
fn put_gate(out: &mut Writer<'_>, g: GateWords)
    ensures { Puts out.old (gate_text (gate_of g)) out.new }
{
    if let Some(name) = name(g) {
        out.put_all(name);
        put_indexed(out, b"q[", g.a);
        put_others(out, g);
        out.put_all(b";\n");
    }
}

pub fn put_gates(out: &mut Writer<'_>, words: &[u32])
    ensures { Puts out.old (concat_map gate_text (gates_of words.now)) out.new }
{
    for i in 0..words.len() / GATE {
        put_gate(out, read_gate(words, i * GATE));
    }
}

// The header and both declarations.
fn put_head(out: &mut Writer<'_>, qubits: u32, bits: u32)
    ensures { Puts out.old (head qubits bits) out.new }
{
    put_indexed(
        out,
        b"OPENQASM 2.0;\ninclude \"qelib1.inc\";\nqreg q[",
        qubits,
    );
    put_indexed(out, b";\ncreg c[", bits);
    out.put_all(b";\n");
}

// The text of a circuit.
pub fn put_text(out: &mut Writer<'_>, qubits: u32, bits: u32, words: &[u32])
    ensures { Puts out.old (written qubits bits (gates_of words.now)) out.new }
{
    put_head(out, qubits, bits);
    put_gates(out, words);
}

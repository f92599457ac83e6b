// How many bytes a text needs.
// Kept (together): the counts and the words, as `write_qasm` takes them.
// Kept (twins): it walks as the printer does, to count: a writer with no room counts no byte, since it leaves each out.
ghost use Rattle.std.specs.Prelude.{◌≡◌, ◌≤◌, leb, length};
ghost use Rattle.gate.specs.Gate.{gates_of};
ghost use Rattle.gate.specs.Inner.Words.{gate_of};
ghost use Rattle.text.specs.Decimal.{word_digits, decimal};
ghost use Rattle.qasm.specs.Writing.{gate_text, written};
ghost use Rattle.qasm_writer.specs.Inner.Print.{qubit_if, others};

use crate::printer::name;
use gate::GATE;
use gate::judge::{GateWords, read_gate};

// The bytes of the header and of both declarations, but for the numbers.
const HEAD: usize = 56;

// The bytes of a gate's first operand and of its line's end, of each further qubit, and of a bit; but for the numbers.
const FIRST: usize = 5;

const QUBIT: usize = 4;

const BIT: usize = 5;

// Kept: digits are counted as `put_decimal` puts them; `checked_ilog10` says between which powers of ten a number lies, and 0, which has a digit, would be a case of its own.
fn decimal_length(n: u32) -> usize
    ensures value { result ≡ length (decimal n) }
    ensures few { result ≤ word_digits }
{
    if n < 10 {
        1
    } else {
        decimal_length(n / 10) + 1
    }
}

// The bytes of one more qubit, if there is one.
// Kept: an Option of a qubit would be made for each call from the same test, as in the printer.
fn qubit_length(used: bool, n: u32) -> usize
    ensures value { result ≡ length (qubit_if used n) }
    ensures few { result ≤ 24 }
{
    if used {
        return QUBIT + decimal_length(n);
    }
    0
}

// The bytes of the operands of a gate behind the first.
fn others_length(g: GateWords) -> usize
    ensures value { result ≡ length (others (gate_of g)) }
    ensures few { result ≤ 48 }
{
    match g.bit() {
        Some(bit) => BIT + decimal_length(bit),
        None => {
            let count = g.qubit_count();
            qubit_length(2 <= count, g.b) + qubit_length(3 <= count, g.c)
        }
    }
}

// The bytes of a gate's line; 0 where its kind has no name.
fn line_length(g: GateWords) -> usize
    ensures { result ≡ length (gate_text (gate_of g)) }
{
    match name(g) {
        Some(name) => name.len() + FIRST + decimal_length(g.a) + others_length(g),
        None => 0,
    }
}

// Whether the text of a circuit has at most so many bytes.
pub fn is_within(qubits: u32, bits: u32, words: &[u32], bytes: usize) -> bool
    ensures { result ≡ leb (length (written qubits bits (gates_of words.now))) bytes }
{
    let head = HEAD + (decimal_length(qubits) + decimal_length(bits));
    if bytes < head {
        return false;
    }
    let mut left = bytes - head;
    for i in 0..words.len() / GATE {
        let g = read_gate(words, i * GATE);
        let n = line_length(g);
        if left < n {
            return false;
        }
        left -= n;
    }
    true
}

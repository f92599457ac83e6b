// The program's input: a circuit, in the numbers of a text.
// Kept (buffers): there is no heap, and the rooms are lent arrays of fixed length (docs/DECISIONS.md): counts say how much of them is used, and the places in them follow from these.
ghost use Rattle.std.specs.Prelude.{◌≡◌, true, cond, ◌+◌, ◌≤◌, length, take, drop};
ghost use Rattle.std.proofs.lemmas.List.Edits.{sets};
ghost use Rattle.circuit_text.specs.Text.{max_bytes, pieces};
ghost use Rattle.circuit_text.specs.Input.{max_bits, bytes, input_of};
ghost use Rattle.circuit_text.specs.Inner.Reading.{filled, stored, max_numbers, seen_with, seen_input, input_in};

use super::numbers::{body_length, read_numbers};
use gate::GATE;
use text::bytes::is_blank;
use text::number::number_in;

// The most bytes that a text has.
pub const MAX_BYTES: usize = 2048;

// The most bits and gates of a circuit, and the most numbers of an input.
pub const MAX_BITS: usize = 64;

const MAX_GATES: usize = 64;

pub const MAX_NUMBERS: usize = 3 + MAX_BITS + GATE * MAX_GATES;

// The largest byte.
const MAX_BYTE: u32 = 255;

// How many qubits, bits and gates a circuit has. In the numbers of its text the store begins at 2, and the gates' words at 3 + bits.
#[derive(Clone, Copy)]
pub struct Circuit {
    pub qubits: u32,
    pub bits: u32,
    pub gates: usize,
}

// What the first numbers of an input say.
// Kept: `count` tells which of the others are read; an enum of how far it is would repeat in each variant the fields of those before.
#[derive(Clone, Copy, Default)]
struct Seen {
    count: usize,
    qubits: u32,
    bits: u32,
    gates: u32,
}

impl Seen {
    // With one more number, if it is no number of the store or a byte.
    fn with(self, v: u32) -> Option<Seen>
        requires { self.count ≤ max_bytes }
        ensures { result ≡ seen_with self v }
    {
        let i = self.count;
        let end = 2 + self.bits as usize;
        let is_right = i < 2 || end <= i || v <= MAX_BYTE;
        is_right.then_some(Seen {
            count: i + 1,
            qubits: if i == 0 { v } else { self.qubits },
            bits: if i == 1 { v } else { self.bits },
            gates: if i == end { v } else { self.gates },
        })
    }

    // The circuit that all numbers say.
    fn circuit(self) -> Option<Circuit>
        ensures { result ≡ seen_input self }
    {
        let m = self.bits as usize;
        let g = self.gates as usize;
        let is_right = m <= MAX_BITS && g <= MAX_GATES && self.count == 3 + m + GATE * g;
        is_right.then_some(Circuit {
            qubits: self.qubits,
            bits: self.bits,
            gates: g,
        })
    }
}

// The circuit in a text with no newline at its end. Nothing is written before the whole text is read.
fn judge(text: &[u8]) -> Option<Circuit>
    requires { length text.now ≤ max_bytes }
    ensures { result ≡ input_in (pieces text.now) }
{
    let mut seen = Seen::default();
    for piece in text.split(|&b| is_blank(b)) {
        let number = number_in(piece)?;
        seen = seen.with(number)?;
    }
    seen.circuit()
}

// Copies the m bytes of the store.
fn copy_store(numbers: &[u32], m: usize, store: &mut [u8])
    requires { ((2 + m ≤ length numbers.now) × (m ≤ length store.old)) × (bytes numbers.now m ≡ true) }
    ensures { store.new ≡ sets store.old 0 (take m (drop 2 numbers.now)) }
{
    for i in 0..m {
        store[i] = numbers[2 + i] as u8;
    }
}

// Reads a circuit into as much room as any input needs.
fn read_circuit(text: &[u8], numbers: &mut [u32], store: &mut [u8]) -> Option<Circuit>
    requires { (max_numbers ≤ length numbers.old) × (max_bits ≤ length store.old) }
    ensures answer { result ≡ input_of text.now }
    ensures numbers { numbers.new ≡ filled text.now numbers.old }
    ensures store { store.new ≡ stored text.now store.old }
{
    if MAX_BYTES < text.len() {
        return None;
    }
    let e = body_length(text);
    let circuit = judge(&text[..e])?;
    let count = read_numbers(&text[..e], numbers);
    copy_store(&numbers[..count], circuit.bits as usize, store);
    Some(circuit)
}

// Reads the circuit in a text; its numbers go to `numbers`, and the bytes of its store to `store`. Where the text is refused, both are as they were.
pub fn read_input(
    text: &[u8],
    numbers: &mut [u32; MAX_NUMBERS],
    store: &mut [u8; MAX_BITS],
) -> Option<Circuit>
    ensures answer { result ≡ input_of text.now }
    ensures numbers { numbers.new ≡ filled text.now numbers.old }
    ensures store { store.new ≡ stored text.now store.old }
{
    read_circuit(text, numbers, store)
}

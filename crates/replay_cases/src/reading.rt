// A circuit of the text.
// Kept (buffers): the places in the text are those of crate replay, which says why.
// Kept (together): a text and a place are what each reader takes; the buffers are lent to be written, and a struct of them would have its last values named by their nesting.
// Kept (twins): Bounds, a value with the next place, as in replay::words.
ghost use Rattle.std.specs.Prelude.{◌≡◌, ◌+◌, length, drop};
ghost use Rattle.replay_cases.specs.Given.{bounds_at, circuit_of, circuit_at, ends_at};

use crate::kinds::CircuitCall;
use circuit::Circuit;
use circuit::limits::Limits;
use replay::numeral::{low, read};
use replay::words::{Part, read_numbers};

// Room for a store and for the words of a gate list.
pub const STORE: usize = 65;

pub const GATES: usize = 5200;

// Room for the ends of layers.
pub const ENDS: usize = 1100;

// Limits, and where the next number begins.
#[derive(Clone, Copy)]
struct Bounds {
    limits: Limits,
    next: usize,
}

// 0 for the defaults, or 1 and all six limits.
fn read_limits(text: &[u8], at: usize) -> Bounds
    ensures { result ≡ bounds_at text.now at }
{
    let given = read(text, at);
    if given.size == 0 {
        return Bounds {
            limits: Limits::defaults(),
            next: given.next,
        };
    }
    let qubits = read(text, given.next);
    let cells = read(text, qubits.next);
    let terms = read(text, cells.next);
    let operations = read(text, terms.next);
    let branches = read(text, operations.next);
    let bits = read(text, branches.next);
    Bounds {
        limits: Limits {
            max_qubits: qubits.size,
            max_matrix_cells: cells.size,
            max_multiply_terms: terms.size,
            max_operations: operations.size,
            max_branches: branches.size,
            max_classical_bits: bits.size,
        },
        next: bits.next,
    }
}

// A circuit with its limits, what stands behind its store and its gates in the slices that they were read into, and where the next number begins.
#[derive(Clone, Copy)]
pub struct CircuitRead<'a> {
    pub circuit: Circuit<'a>,
    pub limits: Limits,
    pub behind_store: &'a [u8],
    pub behind_gates: &'a [u32],
    pub next: usize,
}

// Limits, n, bits, the store and the gate words.
pub fn read_circuit<'a>(
    text: &[u8],
    at: usize,
    store: &'a mut [u8],
    words: &'a mut [u32],
) -> CircuitRead<'a>
    ensures circuit { circuit_of result ≡ circuit_at text.now at (length store.old) (length words.old) }
    ensures store { result.behind_store.now ≡ drop (length result.circuit.store.now) store.old }
    ensures store_room { length result.circuit.store.now + length result.behind_store.now ≡ length store.old }
    ensures gates { result.behind_gates.now ≡ drop (length result.circuit.gates.now) words.old }
    ensures gates_room { length result.circuit.gates.now + length result.behind_gates.now ≡ length words.old }
{
    let bounds = read_limits(text, at);
    let n = read(text, bounds.next);
    let bits = read(text, n.next);
    let bytes = read_numbers(text, bits.next, store);
    let part = read_numbers(text, bytes.next, words);
    CircuitRead {
        circuit: Circuit {
            qubits: low(n.size),
            bits: low(bits.size),
            store: bytes.words,
            gates: part.words,
        },
        limits: bounds.limits,
        behind_store: bytes.rest,
        behind_gates: part.rest,
        next: part.next,
    }
}

// The ends of a circuit's layers, if it has some.
pub fn read_ends<'a>(
    call: CircuitCall,
    text: &[u8],
    at: usize,
    ends: &'a mut [u32],
) -> Part<'a, u32>
    ensures ends { result.words.now ≡ (ends_at call text.now at (length ends.old)).words }
    ensures rest { result.rest.now ≡ drop (length result.words.now) ends.old }
    ensures room { length result.words.now + length result.rest.now ≡ length ends.old }
    ensures next { result.next ≡ (ends_at call text.now at (length ends.old)).next }
{
    match call {
        CircuitCall::Layered => read_numbers(text, at, ends),
        CircuitCall::Unitary | CircuitCall::Plain | CircuitCall::Channel => Part {
            words: &[],
            rest: ends,
            next: at,
        },
    }
}

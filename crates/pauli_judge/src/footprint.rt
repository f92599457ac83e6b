// What a Pauli program asks for, in one pass over the words of its operations.
// Kept (twins): `circuit::footprint` goes over gates as this goes over operations; one walk for both would take a trait of bit, splits and weight, and each contract the law by which its definition of specs comes of it.
ghost use Rattle.std.specs.Prelude.{◌≡◌, ◌+◌, ◌*◌, ◌≤◌, cond, eqb};
ghost use Rattle.algebra.specs.Lists.{some};
ghost use Rattle.gate.specs.Gate.{Gate, gates_of};
ghost use Rattle.pauli_nodes.specs.Operations.{turn_weight, weight};
ghost use Rattle.pauli_words.specs.Words.{operation_of, operations_of};
ghost use Rattle.pauli_words.specs.Inner.Code.{operation_in};
ghost use Rattle.pauli_judge.specs.Footprint.{writes, program_footprint};
ghost use Rattle.pauli_judge.specs.Inner.Newly.{newly};

use circuit::footprint::Footprint;
use gate::GATE;
use gate::judge::read_gate;
use pauli_words::Program;
use pauli_words::operations::Operation;

#[derive(Clone, Copy)]
pub struct ProgramFootprint {
    // one more than the highest node named
    pub nodes: u64,
    // operations with the output frame's, measurements, distinct bits measured into, weight
    pub counts: Footprint,
}

// The weights of rotations by 0 to 7 eighths.
const TURN_WEIGHTS: [u64; 8] = [0, 2, 1, 2, 0, 2, 1, 2];

// The weight of a rotation by k eighths.
fn turn_weight(k: u32) -> u64
    ensures { (result ≡ turn_weight k) × (result ≤ 2) }
{
    TURN_WEIGHTS.get(k as usize).copied().unwrap_or(0)
}

fn weight_of(operation: Operation) -> u64
    ensures { (result ≡ weight (operation_in operation)) × (result ≤ 2) }
{
    match operation {
        Operation::Rotate { eighths, .. } => turn_weight(eighths),
        Operation::RotateIf { eighths, .. } => turn_weight(eighths),
        Operation::Measure { .. } => 2,
    }
}

fn writes(operation: Operation, bit: u32) -> bool
    ensures { result ≡ writes (operation_in operation) bit }
{
    match operation {
        Operation::Measure { bit: Some(b), .. } => bit == b,
        _ => false,
    }
}

// Whether some operation measures into the bit.
fn is_written(words: &[u32], bit: u32) -> bool
    ensures { result ≡ some (λ (g : Gate). writes (operation_of g) bit) (gates_of words.now) }
{
    for i in 0..words.len() / GATE {
        let operation = Operation::of(read_gate(words, i * GATE));
        if writes(operation, bit) {
            return true;
        }
    }
    false
}

// 1 if the operation measures into one of the bits and none of the operations after it does.
fn newly_written(operation: Operation, after: &[u32], bits: u32) -> u64
    ensures { result ≡ newly bits (operation_in operation) (gates_of after.now) }
{
    operation
        .bit()
        .is_some_and(|bit| bit < bits && !is_written(after, bit)) as u64
}

// What the output frame names: nodes 1 to 2n.
fn frame_nodes(n: u32) -> u64
    ensures { result ≡ cond (eqb n 0) 0 (1 + 2 * n) }
{
    if n == 0 { 0 } else { 1 + 2 * (n as u64) }
}

impl ProgramFootprint {
    pub fn of(program: Program) -> ProgramFootprint
        ensures { let p = program.entry in result ≡ program_footprint p.qubits p.bits (operations_of p.operations.now) }
    {
        let words = program.operations;
        let count = words.len() / GATE;
        let mut nodes: u64 = 0;
        let mut splits: u64 = 0;
        let mut written: u64 = 0;
        let mut weight: u64 = 0;
        for i in 0..count {
            let operation = Operation::of(read_gate(words, i * GATE));
            nodes = nodes.max(operation.axis().node as u64 + 1);
            splits += operation.splits() as u64;
            written += newly_written(operation, &words[(i + 1) * GATE..], program.bits);
            weight += weight_of(operation);
        }
        ProgramFootprint {
            nodes: nodes.max(frame_nodes(program.qubits)),
            counts: Footprint {
                gates: count as u64 + 2 * (program.qubits as u64),
                splits,
                written,
                weight,
            },
        }
    }
}

// The questions of pauli_channel, in order.
// Kept (together): the limits and the lengths of the two buffers, as in circuit::questions.
ghost use Rattle.std.specs.Prelude.{◌≡◌, true, ◌&&◌, ◌++◌, ◌/◌, ◌≤◌, length, take, is_ok};
ghost use Rattle.verdict.specs.Questions.{first_no, granted};
ghost use Rattle.gate.specs.Gate.{gate_size, gates_of};
ghost use Rattle.circuit.specs.Limits.{matrix_ceilings, branch_ceilings};
ghost use Rattle.circuit.specs.Inner.Small.{max_qubits, max_gates};
ghost use Rattle.pauli_nodes.specs.Inner.Masks.{node_masks};
ghost use Rattle.pauli_words.specs.Words.{nodes_of, operations_of};
ghost use Rattle.pauli_words.specs.Questions.{number_of, axis_fits, nodes_questions, operations_questions};
ghost use Rattle.pauli_words.specs.Inner.Masks.{max_nodes};
ghost use Rattle.pauli_judge.specs.Footprint.{program_footprint};
ghost use Rattle.pauli_judge.specs.Questions.{max_listed, few_operations, program_word_questions, program_number_questions, pauli_questions, pauli_verdict};

use crate::footprint::ProgramFootprint;
use crate::sizes::ProgramSizes;
use circuit::limits::{Limits, MAX_QUBITS};
use circuit::questions::{judge_counts, judge_sizes};
use gate::GATE;
use pauli_words::masks::Mask;
use pauli_words::nodes::judge_nodes;
use pauli_words::operations::judge_operations;
use pauli_words::{MAX_NODES, Program};
use verdict::{Refusal, Verdict};

const MAX_LISTED: usize = 1024;

// The questions of the nodes, then of the operations; where they are accepted, the mask form of each node is at its number.
fn judge_lists(program: Program, masks: &mut [Mask; MAX_NODES]) -> Verdict
    requires { (program.qubits ≤ max_qubits) × (length program.nodes.now / gate_size ≤ max_listed) × (length program.operations.now / gate_size ≤ max_gates) }
    ensures value { let p = program.entry in result ≡ first_no (nodes_questions p.qubits 0 (gates_of p.nodes.now) ++ operations_questions (axis_fits p.qubits (nodes_of p.nodes.now)) p.bits 0 0 (gates_of p.operations.now)) }
    ensures forms { let p = program.entry in is_ok result ≡ true → take (number_of p.qubits (length p.nodes.now / gate_size)) masks.new ≡ node_masks p.qubits (nodes_of p.nodes.now) }
{
    judge_nodes(program.nodes, program.qubits, masks)?;
    judge_operations(
        program.operations,
        program.bits,
        &masks[..program.node_count()],
    )
}

// Question 3.
fn are_few(program: Program, l: Limits) -> bool
    ensures { let p = program.entry in result ≡ few_operations p.qubits l p.nodes.now p.operations.now }
{
    let n = program.qubits;
    let p = (program.operations.len() / GATE) as u64 + 2 * (n as u64);
    (p <= l.max_operations)
        & ((n as u64 <= MAX_QUBITS) & (program.nodes.len() / GATE <= MAX_LISTED))
}

// The questions of the words, with the mask forms of accepted ones.
fn judge_words(program: Program, l: Limits, masks: &mut [Mask; MAX_NODES]) -> Verdict
    ensures value { let p = program.entry in result ≡ first_no (program_word_questions p.qubits p.bits l p.nodes.now p.operations.now) }
    ensures forms { let p = program.entry in is_ok result ≡ true → take (number_of p.qubits (length p.nodes.now / gate_size)) masks.new ≡ node_masks p.qubits (nodes_of p.nodes.now) }
{
    if !(l.are_matrix_limits_low() && l.are_branch_limits_low()) {
        return Err(Refusal::OverCeiling);
    }
    if program.nodes.len() % GATE != 0 {
        return Err(Refusal::MalformedAt(0));
    }
    if program.operations.len() % GATE != 0 {
        return Err(Refusal::MalformedAt(0));
    }
    if !are_few(program, l) {
        return Err(Refusal::OverLimit);
    }
    judge_lists(program, masks)
}

// Questions 7 to 10, of limits that are low and of words that are within them.
fn judge_numbers(f: ProgramFootprint, program: Program, l: Limits, res: u64, work: u64) -> Verdict
    requires { (matrix_ceilings l && branch_ceilings l ≡ true) × (f.counts.gates ≤ l.max_operations) × (f.nodes ≤ max_nodes) }
    ensures { let p = program.entry in result ≡ first_no (program_number_questions f p.qubits p.bits p.store.now l res work) }
{
    let sizes = judge_counts(f.counts, program.qubits, program.bits, program.store, l)?;
    let nodes = f.nodes;
    judge_sizes(&ProgramSizes { nodes, sizes }, f.counts, l, res, work)
}

// All questions, and what a program that passes asks for; `res` and `work` are the lengths of the buffers. The mask forms of its nodes are then in `masks`.
pub fn judge_runnable(
    program: Program,
    l: Limits,
    res: u64,
    work: u64,
    masks: &mut [Mask; MAX_NODES],
) -> Result<ProgramFootprint, Refusal>
    ensures value { let p = program.entry in result ≡ granted (program_footprint p.qubits p.bits (operations_of p.operations.now)) (pauli_questions p.qubits p.bits p.store.now l p.nodes.now p.operations.now res work) }
    ensures forms { let p = program.entry in is_ok result ≡ true → take (number_of p.qubits (length p.nodes.now / gate_size)) masks.new ≡ node_masks p.qubits (nodes_of p.nodes.now) }
{
    judge_words(program, l, masks)?;
    let f = ProgramFootprint::of(program);
    judge_numbers(f, program, l, res, work)?;
    Ok(f)
}

// The verdict alone.
pub fn judge_pauli(program: Program, l: Limits, res: u64, work: u64) -> Verdict
    ensures { let p = program.entry in result ≡ pauli_verdict p.qubits p.bits p.store.now l p.nodes.now p.operations.now res work }
{
    let mut masks = [Mask::identity(); MAX_NODES];
    judge_runnable(program, l, res, work, &mut masks)?;
    Ok(())
}

// What a program asks for, and the verdict on it.
#[derive(Clone, Copy)]
pub struct JudgedProgram {
    // Kept: a program that is refused has a footprint as well, so that it stands beside the verdict.
    pub verdict: Verdict,
    pub footprint: ProgramFootprint,
}

// The verdict, and what the program asks for, refused or not.
pub fn judge_program(program: Program, l: Limits, res: u64, work: u64) -> JudgedProgram
    ensures verdict_value { let p = program.entry in result.verdict ≡ pauli_verdict p.qubits p.bits p.store.now l p.nodes.now p.operations.now res work }
    ensures footprint_value { let p = program.entry in result.footprint ≡ program_footprint p.qubits p.bits (operations_of p.operations.now) }
{
    JudgedProgram {
        verdict: judge_pauli(program, l, res, work),
        footprint: ProgramFootprint::of(program),
    }
}

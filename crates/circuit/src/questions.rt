// The questions of circuit_channel and of circuit_unitary, in order.
// Kept (together): the limits and the lengths of the two buffers; every caller holds them apart, and a struct of them would be built for each call to be taken apart by its last question.
ghost use Rattle.std.specs.Prelude.{◌≡◌, true, ◌&&◌, ◌≤◌, ◌^◌, is_ok};
ghost use Rattle.algebra.specs.Lists.{total};
ghost use Rattle.verdict.specs.Questions.{granted, first_no};
ghost use Rattle.gate.specs.Gate.{gates_of, splits};
ghost use Rattle.circuit.specs.Limits.{matrix_ceilings, branch_ceilings};
ghost use Rattle.circuit.specs.Footprint.{footprint_of};
ghost use Rattle.circuit.specs.Layers.{layered_questions, layered_verdict};
ghost use Rattle.circuit.specs.Inner.Small.{max_gates};
ghost use Rattle.circuit.specs.Inner.Numbers.{count_questions, size_questions};
ghost use Rattle.circuit.specs.Questions.{sizes_of, length_questions, word_questions, number_questions, channel_questions, channel_verdict, matrix_questions, unitary_verdict};

use crate::Circuit;
use crate::footprint::Footprint;
use crate::gates::judge_gates;
use crate::layers::judge_layers;
use crate::limits::Limits;
use crate::sizes::{Fits, MAX_SPLITS, Rows, Sizes, has_unitary_room, is_unitary_within};
use gate::GATE;
use gate::judge::Asking;
use store::is_store;
use verdict::{Refusal, Verdict};

const MAX_WEIGHT: u64 = 56;

// Questions 1 to 3, of the limits and of the list's length.
pub fn judge_length(words: &[u32], l: Limits) -> Verdict
    ensures { result ≡ first_no (length_questions l words.now) }
{
    if !(l.are_matrix_limits_low() & l.are_branch_limits_low()) {
        return Err(Refusal::OverCeiling);
    }
    if words.len() % GATE != 0 {
        return Err(Refusal::MalformedAt(0));
    }
    if l.max_operations < (words.len() / GATE) as u64 {
        return Err(Refusal::OverLimit);
    }
    Ok(())
}

// Questions 1 to 6.
pub fn judge_words(circuit: Circuit, l: Limits) -> Verdict
    ensures { let c = circuit.entry in result ≡ first_no (word_questions c.qubits c.bits l c.gates.now) }
{
    judge_length(circuit.gates, l)?;
    judge_gates(circuit.gates, circuit.qubits, Asking::Channel(circuit.bits))
}

// Question 7, and what question 8 asks before the sizes are worked out; the sizes.
pub fn judge_counts(
    f: Footprint,
    n: u32,
    bits: u32,
    store: &[u8],
    l: Limits,
) -> Result<Sizes, Refusal>
    requires { matrix_ceilings l ≡ true }
    ensures { result ≡ granted (sizes_of f n) (count_questions f n bits store.now l) }
{
    if !is_store(store, bits) {
        return Err(Refusal::BadStore);
    }
    if (l.max_classical_bits < bits as u64)
        | ((l.max_qubits < n as u64) | (MAX_SPLITS < f.splits))
    {
        return Err(Refusal::OverLimit);
    }
    Ok(Sizes::of(f, n))
}

// What question 8 asks of the sizes, and questions 9 and 10.
pub fn judge_sizes<S: Fits>(s: &S, f: Footprint, l: Limits, res: u64, work: u64) -> Verdict
    requires { f.gates ≤ max_gates }
    ensures { result ≡ first_no (size_questions (S.within s.now f.gates l) f.weight (S.room s.now res work)) }
{
    if !s.is_within(f.gates, l) {
        return Err(Refusal::OverLimit);
    }
    if MAX_WEIGHT < f.weight {
        return Err(Refusal::TooHeavy);
    }
    if !s.has_room(res, work) {
        return Err(Refusal::ShortBuffer);
    }
    Ok(())
}

// Questions 7 to 10, of limits that are low and of gates that are within them. A kept circuit, which is judged by its counts, has no gate words that would make it a `Circuit`.
pub fn judge_numbers(
    f: Footprint,
    n: u32,
    bits: u32,
    store: &[u8],
    l: Limits,
    res: u64,
    work: u64,
) -> Verdict
    requires { (matrix_ceilings l && branch_ceilings l ≡ true) × (f.gates ≤ l.max_operations) }
    ensures { result ≡ first_no (number_questions f n bits store.now l res work) }
{
    let sizes = judge_counts(f, n, bits, store, l)?;
    judge_sizes(&sizes, f, l, res, work)
}

// Kept: inlined, as `judge_circuit`.
// Questions 7 to 10, of gates that have passed questions 1 to 6; the measures and resets.
#[inline(always)]
fn judge_counted(circuit: Circuit, l: Limits, res: u64, work: u64) -> Result<u64, Refusal>
    requires { is_ok (first_no (word_questions circuit.qubits circuit.bits l circuit.gates.now)) ≡ true }
    ensures { let c = circuit.entry in let gs = gates_of c.gates.now in result ≡ granted (total splits gs) (number_questions (footprint_of c.bits gs) c.qubits c.bits c.store.now l res work) }
{
    let f = Footprint::of(circuit.gates, circuit.bits);
    judge_numbers(f, circuit.qubits, circuit.bits, circuit.store, l, res, work)?;
    Ok(f.splits)
}

// Kept: inlined, so that the circuit and its limits are not written down for a call, which the smallest circuits would feel.
// All ten questions, and the measures and resets of a circuit that passes; `res` and `work` are the lengths of the buffers.
#[inline(always)]
pub fn judge_circuit(circuit: Circuit, l: Limits, res: u64, work: u64) -> Result<u64, Refusal>
    ensures { let c = circuit.entry in result ≡ granted (total splits (gates_of c.gates.now)) (channel_questions c.qubits c.bits c.store.now l c.gates.now res work) }
{
    judge_words(circuit, l)?;
    judge_counted(circuit, l, res, work)
}

// As `judge_circuit`, of a layered circuit: the layers are asked between the gates and the store.
pub fn judge_layered(
    circuit: Circuit,
    l: Limits,
    ends: &[u32],
    res: u64,
    work: u64,
) -> Result<u64, Refusal>
    ensures { let c = circuit.entry in result ≡ granted (total splits (gates_of c.gates.now)) (layered_questions c.qubits c.bits c.store.now l c.gates.now ends.now res work) }
{
    judge_words(circuit, l)?;
    judge_layers(circuit.gates, ends)?;
    judge_counted(circuit, l, res, work)
}

// The verdict alone.
pub fn judge_channel(circuit: Circuit, l: Limits, res: u64, work: u64) -> Verdict
    ensures { let c = circuit.entry in result ≡ channel_verdict c.qubits c.bits c.store.now l c.gates.now res work }
{
    judge_circuit(circuit, l, res, work)?;
    Ok(())
}

// The verdict alone, of a layered circuit.
pub fn judge_layered_channel(
    circuit: Circuit,
    l: Limits,
    ends: &[u32],
    res: u64,
    work: u64,
) -> Verdict
    ensures { let c = circuit.entry in result ≡ layered_verdict c.qubits c.bits c.store.now l c.gates.now ends.now res work }
{
    judge_layered(circuit, l, ends, res, work)?;
    Ok(())
}

// circuit_unitary's questions from the gates on.
fn judge_matrix(n: u32, rows: Rows, words: &[u32], res: u64, work: u64) -> Verdict
    requires { rows ≡ 2 ^ n }
    ensures { result ≡ first_no (matrix_questions n words.now res work) }
{
    judge_gates(words, n, Asking::Unitary)?;
    if MAX_WEIGHT < Footprint::of(words, 0).weight {
        return Err(Refusal::TooHeavy);
    }
    if !has_unitary_room(rows, res, work) {
        return Err(Refusal::ShortBuffer);
    }
    Ok(())
}

// circuit_unitary: the limits come before the gates.
pub fn judge_unitary(n: u32, l: Limits, words: &[u32], res: u64, work: u64) -> Verdict
    ensures { result ≡ unitary_verdict n l words.now res work }
{
    let gates = (words.len() / GATE) as u64;
    if !l.are_matrix_limits_low() {
        return Err(Refusal::OverCeiling);
    }
    if words.len() % GATE != 0 {
        return Err(Refusal::MalformedAt(0));
    }
    if (l.max_qubits < n as u64) | (l.max_operations < gates) {
        return Err(Refusal::OverLimit);
    }
    let rows = Rows::of(n);
    if !is_unitary_within(rows, gates, l) {
        return Err(Refusal::OverLimit);
    }
    judge_matrix(n, rows, words, res, work)
}

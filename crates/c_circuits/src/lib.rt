// The calls of the C interface on circuits, those of the plain-gate profile among them.
// Kept (together): each call has the parameters of its C function, which lends every buffer apart; the limits become `Limits` at once, and, but in `circuit_unitary`, which has neither bits nor a store, the circuit a `Circuit`.
// Kept (twins): they share `read_limits` and `report`; a function that takes the call between them as a closure would save one line of each, and need a contract on it.
#![tactic(auto)]

ghost use Rattle.std.specs.Prelude.{◌≡◌};
ghost use Rattle.verdict.specs.Verdict.{verdict_number, verdict_index};
ghost use Rattle.circuit.specs.Layers.{layered_verdict};
ghost use Rattle.judge.specs.Call as channel;
ghost use Rattle.judge.specs.Layered.{layered_verdict_of, layered_result, layered_work};
ghost use Rattle.plain.specs.Questions.{plain_verdict};
ghost use Rattle.plain.specs.Call.{plain_verdict_of, plain_result, plain_work};
ghost use Rattle.unitary.specs.Unitary as unitary;
ghost use Rattle.c_circuits.specs.Circuits.{limits_of};

pub mod programs;
pub mod schedules;

use c_scalars::words::report;
use circuit::Circuit;
use circuit::limits::Limits;
use circuit::questions::judge_layered_channel;
use plain::judge_plain_channel;

// Kept: the six words are the C interface's, of which crate circuit knows nothing; From could stand there alone, since neither the array nor Limits is a type of this crate.
// Limits from six words.
pub fn read_limits(limits: &[u64; 6]) -> Limits
    ensures { result ≡ limits_of limits.now }
{
    Limits {
        max_qubits: limits[0],
        max_matrix_cells: limits[1],
        max_multiply_terms: limits[2],
        max_operations: limits[3],
        max_branches: limits[4],
        max_classical_bits: limits[5],
    }
}

// The channel of a circuit: the verdict's number, and its index in `index`.
pub fn circuit_channel(
    qubits: u32,
    bits: u32,
    store: &[u8],
    gates: &[u32],
    limits: &[u64; 6],
    res: &mut [i64],
    work: &mut [i64],
    index: &mut u64,
) -> u32
    ensures value { result ≡ verdict_number (channel.verdict_of qubits bits store.now (limits_of limits.now) gates.now res.old work.old) }
    ensures index_after { index.new ≡ verdict_index (channel.verdict_of qubits bits store.now (limits_of limits.now) gates.now res.old work.old) }
    ensures res_after { res.new ≡ channel.result_after qubits bits store.now (limits_of limits.now) gates.now res.old work.old }
    ensures work_after { work.new ≡ channel.work_after qubits bits store.now (limits_of limits.now) gates.now res.old work.old }
{
    let circuit = Circuit {
        qubits,
        bits,
        store,
        gates,
    };
    let v = judge::call::circuit_channel(circuit, read_limits(limits), res, work);
    report(&v, index)
}

// The channel of a circuit of the profile: the verdict's number, and its index in `index`.
pub fn plain_channel(
    qubits: u32,
    bits: u32,
    store: &[u8],
    gates: &[u32],
    limits: &[u64; 6],
    res: &mut [i64],
    work: &mut [i64],
    index: &mut u64,
) -> u32
    ensures value { result ≡ verdict_number (plain_verdict_of qubits bits store.now (limits_of limits.now) gates.now res.old work.old) }
    ensures index_after { index.new ≡ verdict_index (plain_verdict_of qubits bits store.now (limits_of limits.now) gates.now res.old work.old) }
    ensures res_after { res.new ≡ plain_result qubits bits store.now (limits_of limits.now) gates.now res.old work.old }
    ensures work_after { work.new ≡ plain_work qubits bits store.now (limits_of limits.now) gates.now res.old work.old }
{
    let circuit = Circuit {
        qubits,
        bits,
        store,
        gates,
    };
    let v = plain::plain_channel(circuit, read_limits(limits), res, work);
    report(&v, index)
}

// The verdict on a circuit of the profile alone, for buffers of so many words: its number, and its index in `index`.
pub fn plain_verdict(
    qubits: u32,
    bits: u32,
    store: &[u8],
    gates: &[u32],
    limits: &[u64; 6],
    result_words: usize,
    work_words: usize,
    index: &mut u64,
) -> u32
    ensures value { result ≡ verdict_number (plain_verdict qubits bits store.now (limits_of limits.now) gates.now result_words work_words) }
    ensures index_after { index.new ≡ verdict_index (plain_verdict qubits bits store.now (limits_of limits.now) gates.now result_words work_words) }
{
    let l = read_limits(limits);
    let circuit = Circuit {
        qubits,
        bits,
        store,
        gates,
    };
    let v = judge_plain_channel(circuit, l, result_words as u64, work_words as u64);
    report(&v, index)
}

// The channel of a layered circuit, whose layers end at `ends`: the verdict's number, and its index in `index`.
pub fn layered_channel(
    qubits: u32,
    bits: u32,
    store: &[u8],
    gates: &[u32],
    ends: &[u32],
    limits: &[u64; 6],
    res: &mut [i64],
    work: &mut [i64],
    index: &mut u64,
) -> u32
    ensures value { result ≡ verdict_number (layered_verdict_of qubits bits store.now (limits_of limits.now) gates.now ends.now res.old work.old) }
    ensures index_after { index.new ≡ verdict_index (layered_verdict_of qubits bits store.now (limits_of limits.now) gates.now ends.now res.old work.old) }
    ensures res_after { res.new ≡ layered_result qubits bits store.now (limits_of limits.now) gates.now ends.now res.old work.old }
    ensures work_after { work.new ≡ layered_work qubits bits store.now (limits_of limits.now) gates.now ends.now res.old work.old }
{
    let circuit = Circuit {
        qubits,
        bits,
        store,
        gates,
    };
    let v = judge::call::layered_channel(circuit, ends, read_limits(limits), res, work);
    report(&v, index)
}

// The verdict of a layered circuit alone, for buffers of so many words: its number, and its index in `index`.
pub fn layered_verdict(
    qubits: u32,
    bits: u32,
    store: &[u8],
    gates: &[u32],
    ends: &[u32],
    limits: &[u64; 6],
    result_words: usize,
    work_words: usize,
    index: &mut u64,
) -> u32
    ensures value { result ≡ verdict_number (layered_verdict qubits bits store.now (limits_of limits.now) gates.now ends.now result_words work_words) }
    ensures index_after { index.new ≡ verdict_index (layered_verdict qubits bits store.now (limits_of limits.now) gates.now ends.now result_words work_words) }
{
    let l = read_limits(limits);
    let circuit = Circuit {
        qubits,
        bits,
        store,
        gates,
    };
    let v = judge_layered_channel(circuit, l, ends, result_words as u64, work_words as u64);
    report(&v, index)
}

// The unitary of a circuit: the verdict's number, and its index in `index`.
pub fn circuit_unitary(
    qubits: u32,
    gates: &[u32],
    limits: &[u64; 6],
    res: &mut [i64],
    work: &mut [i64],
    index: &mut u64,
) -> u32
    ensures value { result ≡ verdict_number (unitary.verdict_of qubits (limits_of limits.now) gates.now res.old work.old) }
    ensures index_after { index.new ≡ verdict_index (unitary.verdict_of qubits (limits_of limits.now) gates.now res.old work.old) }
    ensures res_after { res.new ≡ unitary.result_after qubits (limits_of limits.now) gates.now res.old work.old }
    ensures work_after { work.new ≡ unitary.work_after qubits (limits_of limits.now) gates.now res.old work.old }
{
    let v = unitary::circuit_unitary(qubits, gates, read_limits(limits), res, work);
    report(&v, index)
}

// The calls of the C interface on Pauli programs.
// Kept (together): each call has the parameters of its C function, which lends every buffer apart; the program and the limits become a `Program` and `Limits` at once.
ghost use Rattle.std.specs.Prelude.{◌≡◌};
ghost use Rattle.verdict.specs.Verdict.{verdict_number, verdict_index};
ghost use Rattle.c_circuits.specs.Circuits.{limits_of};
ghost use Rattle.pauli_judge.specs.Questions.{pauli_verdict};
ghost use Rattle.pauli.specs.Call as pauli;

use crate::read_limits;
use c_scalars::words::report;
use pauli_judge::questions::judge_pauli;
use pauli_words::Program;

// Kept: each call builds its program from what C hands over, calls and reports; a closure for the call between would be no plainer.
// The questions of pauli_channel alone, for result and work buffers of these lengths: the verdict's number, and its index in `index`.
pub fn pauli_verdict(
    qubits: u32,
    bits: u32,
    store: &[u8],
    nodes: &[u32],
    operations: &[u32],
    limits: &[u64; 6],
    result_words: usize,
    work_words: usize,
    index: &mut u64,
) -> u32
    ensures value { result ≡ verdict_number (pauli_verdict qubits bits store.now (limits_of limits.now) nodes.now operations.now result_words work_words) }
    ensures index_after { index.new ≡ verdict_index (pauli_verdict qubits bits store.now (limits_of limits.now) nodes.now operations.now result_words work_words) }
{
    let program = Program {
        qubits,
        bits,
        store,
        nodes,
        operations,
    };
    let l = read_limits(limits);
    let answer = judge_pauli(program, l, result_words as u64, work_words as u64);
    report(&answer, index)
}

// The channel of a Pauli program: the verdict's number, and its index in `index`.
pub fn pauli_channel(
    qubits: u32,
    bits: u32,
    store: &[u8],
    nodes: &[u32],
    operations: &[u32],
    limits: &[u64; 6],
    res: &mut [i64],
    work: &mut [i64],
    index: &mut u64,
) -> u32
    ensures value { result ≡ verdict_number (pauli.verdict_of qubits bits store.now (limits_of limits.now) nodes.now operations.now res.old work.old) }
    ensures index_after { index.new ≡ verdict_index (pauli.verdict_of qubits bits store.now (limits_of limits.now) nodes.now operations.now res.old work.old) }
    ensures res_after { res.new ≡ pauli.result_after qubits bits store.now (limits_of limits.now) nodes.now operations.now res.old work.old }
    ensures work_after { work.new ≡ pauli.work_after qubits bits store.now (limits_of limits.now) nodes.now operations.now res.old work.old }
{
    let program = Program {
        qubits,
        bits,
        store,
        nodes,
        operations,
    };
    let l = read_limits(limits);
    let answer = pauli::call::pauli_channel(program, l, res, work);
    report(&answer, index)
}

// Pauli programs.
// Kept (twins, together): the names and the parameters are those of include/foreituka.h.
ghost use Rattle.std.specs.Prelude.{◌≡◌};
ghost use Rattle.verdict.specs.Verdict.{verdict_number, verdict_index};
ghost use Rattle.c_circuits.specs.Circuits.{limits_of};
ghost use Rattle.pauli_judge.specs.Questions.{pauli_verdict};
ghost use Rattle.pauli.specs.Call as pauli;

// The questions of pauli_channel alone, for result and work buffers of these lengths: the verdict's number, and its index in `index`.
#[unsafe(no_mangle)]
pub extern "C" fn foreituka_pauli_verdict(
    qubits: u32,
    bits: u32,
    store: &[u8],
    nodes: &[u32],
    operations: &[u32],
    limits: &[u64; 6],
    result_words: usize,
    work_words: usize,
    index: &mut u64,
) -> u32
    ensures value { result ≡ verdict_number (pauli_verdict qubits bits store.now (limits_of limits.now) nodes.now operations.now result_words work_words) }
    ensures index_after { index.new ≡ verdict_index (pauli_verdict qubits bits store.now (limits_of limits.now) nodes.now operations.now result_words work_words) }
{
    c_circuits::programs::pauli_verdict(
        qubits,
        bits,
        store,
        nodes,
        operations,
        limits,
        result_words,
        work_words,
        index,
    )
}

// The channel of a Pauli program: the verdict's number, and its index in `index`.
#[unsafe(no_mangle)]
pub extern "C" fn foreituka_pauli_channel(
    qubits: u32,
    bits: u32,
    store: &[u8],
    nodes: &[u32],
    operations: &[u32],
    limits: &[u64; 6],
    res: &mut [i64],
    work: &mut [i64],
    index: &mut u64,
) -> u32
    ensures value { result ≡ verdict_number (pauli.verdict_of qubits bits store.now (limits_of limits.now) nodes.now operations.now res.old work.old) }
    ensures index_after { index.new ≡ verdict_index (pauli.verdict_of qubits bits store.now (limits_of limits.now) nodes.now operations.now res.old work.old) }
    ensures res_after { res.new ≡ pauli.result_after qubits bits store.now (limits_of limits.now) nodes.now operations.now res.old work.old }
    ensures work_after { work.new ≡ pauli.work_after qubits bits store.now (limits_of limits.now) nodes.now operations.now res.old work.old }
{
    c_circuits::programs::pauli_channel(
        qubits, bits, store, nodes, operations, limits, res, work, index,
    )
}

// circuit_channel, the calls on circuits of the plain-gate profile and on layered ones, and circuit_unitary.
// Kept (twins, together): the names and the parameters are those of include/foreituka.h.
ghost use Rattle.std.specs.Prelude.{◌≡◌};
ghost use Rattle.verdict.specs.Verdict.{verdict_number, verdict_index};
ghost use Rattle.circuit.specs.Layers.{layered_verdict};
ghost use Rattle.judge.specs.Call as channel;
ghost use Rattle.judge.specs.Layered.{layered_verdict_of, layered_result, layered_work};
ghost use Rattle.plain.specs.Questions.{plain_verdict};
ghost use Rattle.plain.specs.Call.{plain_verdict_of, plain_result, plain_work};
ghost use Rattle.unitary.specs.Unitary as unitary;
ghost use Rattle.c_circuits.specs.Circuits.{limits_of};

// The channel of a circuit: the verdict's number, and its index in `index`.
#[unsafe(no_mangle)]
pub extern "C" fn foreituka_circuit_channel(
    qubits: u32,
    bits: u32,
    store: &[u8],
    gates: &[u32],
    limits: &[u64; 6],
    res: &mut [i64],
    work: &mut [i64],
    index: &mut u64,
) -> u32
    ensures value { result ≡ verdict_number (channel.verdict_of qubits bits store.now (limits_of limits.now) gates.now res.old work.old) }
    ensures index_after { index.new ≡ verdict_index (channel.verdict_of qubits bits store.now (limits_of limits.now) gates.now res.old work.old) }
    ensures res_after { res.new ≡ channel.result_after qubits bits store.now (limits_of limits.now) gates.now res.old work.old }
    ensures work_after { work.new ≡ channel.work_after qubits bits store.now (limits_of limits.now) gates.now res.old work.old }
{
    c_circuits::circuit_channel(qubits, bits, store, gates, limits, res, work, index)
}

// The channel of a circuit of the profile: the verdict's number, and its index in `index`.
#[unsafe(no_mangle)]
pub extern "C" fn foreituka_plain_channel(
    qubits: u32,
    bits: u32,
    store: &[u8],
    gates: &[u32],
    limits: &[u64; 6],
    res: &mut [i64],
    work: &mut [i64],
    index: &mut u64,
) -> u32
    ensures value { result ≡ verdict_number (plain_verdict_of qubits bits store.now (limits_of limits.now) gates.now res.old work.old) }
    ensures index_after { index.new ≡ verdict_index (plain_verdict_of qubits bits store.now (limits_of limits.now) gates.now res.old work.old) }
    ensures res_after { res.new ≡ plain_result qubits bits store.now (limits_of limits.now) gates.now res.old work.old }
    ensures work_after { work.new ≡ plain_work qubits bits store.now (limits_of limits.now) gates.now res.old work.old }
{
    c_circuits::plain_channel(qubits, bits, store, gates, limits, res, work, index)
}

// The verdict on a circuit of the profile alone, for buffers of so many words: its number, and its index in `index`.
#[unsafe(no_mangle)]
pub extern "C" fn foreituka_plain_verdict(
    qubits: u32,
    bits: u32,
    store: &[u8],
    gates: &[u32],
    limits: &[u64; 6],
    result_words: usize,
    work_words: usize,
    index: &mut u64,
) -> u32
    ensures value { result ≡ verdict_number (plain_verdict qubits bits store.now (limits_of limits.now) gates.now result_words work_words) }
    ensures index_after { index.new ≡ verdict_index (plain_verdict qubits bits store.now (limits_of limits.now) gates.now result_words work_words) }
{
    c_circuits::plain_verdict(
        qubits,
        bits,
        store,
        gates,
        limits,
        result_words,
        work_words,
        index,
    )
}

// The channel of a layered circuit, whose layers end at `ends`: the verdict's number, and its index in `index`.
#[unsafe(no_mangle)]
pub extern "C" fn foreituka_layered_channel(
    qubits: u32,
    bits: u32,
    store: &[u8],
    gates: &[u32],
    ends: &[u32],
    limits: &[u64; 6],
    res: &mut [i64],
    work: &mut [i64],
    index: &mut u64,
) -> u32
    ensures value { result ≡ verdict_number (layered_verdict_of qubits bits store.now (limits_of limits.now) gates.now ends.now res.old work.old) }
    ensures index_after { index.new ≡ verdict_index (layered_verdict_of qubits bits store.now (limits_of limits.now) gates.now ends.now res.old work.old) }
    ensures res_after { res.new ≡ layered_result qubits bits store.now (limits_of limits.now) gates.now ends.now res.old work.old }
    ensures work_after { work.new ≡ layered_work qubits bits store.now (limits_of limits.now) gates.now ends.now res.old work.old }
{
    c_circuits::layered_channel(qubits, bits, store, gates, ends, limits, res, work, index)
}

// The verdict of a layered circuit alone, for buffers of so many words: its number, and its index in `index`.
#[unsafe(no_mangle)]
pub extern "C" fn foreituka_layered_verdict(
    qubits: u32,
    bits: u32,
    store: &[u8],
    gates: &[u32],
    ends: &[u32],
    limits: &[u64; 6],
    result_words: usize,
    work_words: usize,
    index: &mut u64,
) -> u32
    ensures value { result ≡ verdict_number (layered_verdict qubits bits store.now (limits_of limits.now) gates.now ends.now result_words work_words) }
    ensures index_after { index.new ≡ verdict_index (layered_verdict qubits bits store.now (limits_of limits.now) gates.now ends.now result_words work_words) }
{
    c_circuits::layered_verdict(
        qubits,
        bits,
        store,
        gates,
        ends,
        limits,
        result_words,
        work_words,
        index,
    )
}

// The unitary of a circuit: the verdict's number, and its index in `index`.
#[unsafe(no_mangle)]
pub extern "C" fn foreituka_circuit_unitary(
    qubits: u32,
    gates: &[u32],
    limits: &[u64; 6],
    res: &mut [i64],
    work: &mut [i64],
    index: &mut u64,
) -> u32
    ensures value { result ≡ verdict_number (unitary.verdict_of qubits (limits_of limits.now) gates.now res.old work.old) }
    ensures index_after { index.new ≡ verdict_index (unitary.verdict_of qubits (limits_of limits.now) gates.now res.old work.old) }
    ensures res_after { res.new ≡ unitary.result_after qubits (limits_of limits.now) gates.now res.old work.old }
    ensures work_after { work.new ≡ unitary.work_after qubits (limits_of limits.now) gates.now res.old work.old }
{
    c_circuits::circuit_unitary(qubits, gates, limits, res, work, index)
}

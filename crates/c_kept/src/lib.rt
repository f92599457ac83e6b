// The calls of the C interface on circuits that are kept with their counts.
// Kept (together): the parameters are those of the C interface.
#![tactic(auto)]

ghost use Rattle.std.specs.Prelude.{◌≡◌};
ghost use Rattle.verdict.specs.Verdict.{verdict_number, verdict_index};
ghost use Rattle.gate.specs.Gate.{gate_at};
ghost use Rattle.c_circuits.specs.Circuits.{limits_of};
ghost use Rattle.kept_circuit.specs.Edits.{start_verdict, started, append_verdict, appended, remove_verdict, removed, replace_verdict, replaced};
ghost use Rattle.kept_verdict.specs.Questions.{kept_verdict, copy_verdict, copied_to};

use c_circuits::read_limits;
use c_scalars::words::report;
use gate::judge::read_gate;
use verdict::number;

// Start empty: the verdict's number.
pub fn start(qubits: u32, bits: u32, words: &mut [i64]) -> u32
    ensures value { result ≡ verdict_number (start_verdict qubits bits words.old) }
    ensures words_after { words.new ≡ started qubits bits words.old }
{
    number(&kept_circuit::edits::start(qubits, bits, words))
}

// Append a gate: the verdict's number, and its index in `index`.
pub fn append(words: &mut [i64], gate: &[u32; 5], index: &mut u64) -> u32
    ensures value { result ≡ verdict_number (append_verdict words.old (gate_at gate.now 0)) }
    ensures index_after { index.new ≡ verdict_index (append_verdict words.old (gate_at gate.now 0)) }
    ensures words_after { words.new ≡ appended words.old (gate_at gate.now 0) }
{
    let answer = kept_circuit::edits::append(words, read_gate(gate, 0));
    report(&answer, index)
}

// Remove the last gate: the verdict's number.
pub fn remove_last(words: &mut [i64]) -> u32
    ensures value { result ≡ verdict_number (remove_verdict words.old) }
    ensures words_after { words.new ≡ removed words.old }
{
    number(&kept_circuit::edits::remove_last(words))
}

// Replace the gate at a position: the verdict's number, and its index in `index`.
pub fn replace(words: &mut [i64], position: usize, gate: &[u32; 5], index: &mut u64) -> u32
    ensures value { result ≡ verdict_number (replace_verdict words.old position (gate_at gate.now 0)) }
    ensures index_after { index.new ≡ verdict_index (replace_verdict words.old position (gate_at gate.now 0)) }
    ensures words_after { words.new ≡ replaced words.old position (gate_at gate.now 0) }
{
    let answer = kept_circuit::edits::replace(words, position, read_gate(gate, 0));
    report(&answer, index)
}

// The verdict on the circuit, from its counts, for buffers of so many words: its number.
pub fn verdict(
    words: &[i64],
    store: &[u8],
    limits: &[u64; 6],
    result_words: usize,
    work_words: usize,
) -> u32
    ensures { result ≡ verdict_number (kept_verdict words.now store.now (limits_of limits.now) result_words work_words) }
{
    let l = read_limits(limits);
    number(&kept_verdict::judge_kept(words, store, l, result_words as u64, work_words as u64))
}

// Copy the gates out: the verdict's number.
pub fn copy_gates(words: &[i64], out: &mut [u32]) -> u32
    ensures value { result ≡ verdict_number (copy_verdict words.now out.old) }
    ensures out_after { out.new ≡ copied_to words.now out.old }
{
    number(&kept_verdict::copy_gates(words, out))
}

// A kept circuit judged by its counts, and its gates copied out.
// Kept (together): a store, limits and the lengths of two buffers are asked as circuit::questions asks them, but for no gates; Circuit holds gates, and a kept circuit has them in other words.
#![tactic(auto)]

ghost use Rattle.std.specs.Prelude.{◌≡◌, true, ◌≤◌, length, map, nat_abs};
ghost use Rattle.std.proofs.lemmas.List.Edits.{sets};
ghost use Rattle.store.specs.Store.{max_word};
ghost use Rattle.kept_circuit.specs.Kept.{all_up_to};
ghost use Rattle.kept_verdict.specs.Questions.{kept_footprint, kept_verdict, copy_verdict, copied_to};

use channel::layout::follow;
use circuit::footprint::Footprint;
use circuit::limits::Limits;
use circuit::questions::judge_numbers;
use gate::GATE;
use kept_circuit::counts::{BITS, GATES, HEAD, QUBITS, SPLITS, WEIGHT, WRITTEN, are_up_to};
use kept_circuit::kept::Kept;
use store::MAX_WORD;
use verdict::{Refusal, Verdict};

// What the counts say that the gates ask for.
fn footprint_of(kept: Kept) -> Footprint
    ensures { result ≡ kept_footprint kept.entry.words.now }
{
    Footprint {
        gates: kept.count(GATES) as u64,
        splits: kept.count(SPLITS) as u64,
        written: kept.count(WRITTEN) as u64,
        weight: kept.count(WEIGHT) as u64,
    }
}

// All ten questions; `res` and `work` are the lengths of the buffers.
pub fn judge_kept(words: &[i64], store: &[u8], l: Limits, res: u64, work: u64) -> Verdict
    ensures { result ≡ kept_verdict words.now store.now l res work }
{
    let kept = Kept::read(words)?;
    if !(l.are_matrix_limits_low() & l.are_branch_limits_low()) {
        return Err(Refusal::OverCeiling);
    }
    let f = footprint_of(kept);
    if l.max_operations < f.gates {
        return Err(Refusal::OverLimit);
    }
    judge_numbers(f, kept.count(QUBITS), kept.count(BITS), store, l, res, work)
}

// The words of gates, as circuit_channel takes them.
// Kept: the clause is `sets` at 0 of an `out` that may be longer, and `follow` reads a word by its place; a zip of `out` with the words would need beside it what it leaves of `out`.
fn copy_words(words: &[i64], out: &mut [u32])
    requires { (length words.now ≤ length out.old) × (all_up_to words.now 0 (length words.now) max_word ≡ true) }
    ensures { out.new ≡ sets out.old 0 (map nat_abs words.now) }
{
    for k in 0..words.len() {
        out[k] = follow(words, k) as u32;
    }
}

// Copy the gates out, five words each.
pub fn copy_gates(words: &[i64], out: &mut [u32]) -> Verdict
    ensures value { result ≡ copy_verdict words.now out.old }
    ensures out_after { out.new ≡ copied_to words.now out.old }
{
    let kept = Kept::read(words)?;
    let n = kept.gates() * GATE;
    if !are_up_to(words, HEAD, n, MAX_WORD) {
        return Err(Refusal::BadCounts);
    }
    if out.len() < n {
        return Err(Refusal::ShortBuffer);
    }
    copy_words(&words[HEAD..HEAD + n], out);
    Ok(())
}

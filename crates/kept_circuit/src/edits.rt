// Start, append, remove last and replace.
// Kept (together, buffers): the words, counts and all, are the caller's, whose layout and positions the C interface fixes.
// Kept (facts): that the bit of a gate has a count, as in counts.rt.
ghost use Rattle.std.specs.Prelude.{◌≡◌, true, ℕ, ◌+◌, ◌≤◌, ltb, length};
ghost use Rattle.algebra.specs.Lists.{every};
ghost use Rattle.gate.specs.Gate.{gate, gate_size, bits};
ghost use Rattle.gate.specs.Inner.Words.{gate_of};
ghost use Rattle.kept_circuit.specs.Kept.{max_bits, gate_place};
ghost use Rattle.kept_circuit.specs.Edits.{counted, put, start_verdict, started, append_verdict, appended, remove_verdict, removed, replace_verdict, replaced};
ghost use Rattle.kept_circuit.specs.Inner.Within.{Within};

use crate::counts::{BITS, HEAD, QUBITS, count_gate, room_in};
use crate::kept::Kept;
use crate::places::write_gate;
use circuit::limits::{MAX_CLASSICAL_BITS, MAX_QUBITS};
use gate::GATE;
use gate::judge::GateWords;
use verdict::{Refusal, Verdict};

// What stands in a place without a gate.
// Kept: the layout has zeros there. They are written as the words of a gate are, and read as none.
const NO_GATE: GateWords = GateWords {
    kind: 0,
    a: 0,
    b: 0,
    c: 0,
    k: 0,
};

// Start empty, with so many qubits and classical bits: every other word is 0.
pub fn start(qubits: u32, bits: u32, words: &mut [i64]) -> Verdict
    ensures value { result ≡ start_verdict qubits bits words.old }
    ensures words_after { words.new ≡ started qubits bits words.old }
{
    if (MAX_QUBITS < qubits as u64) | (MAX_CLASSICAL_BITS < bits as u64) {
        return Err(Refusal::OverLimit);
    }
    if words.len() < HEAD {
        return Err(Refusal::ShortBuffer);
    }
    words.fill(0);
    words[QUBITS] = qubits as i64;
    words[BITS] = bits as i64;
    Ok(())
}

// Gate g at position i, which is free: into the counts and into its words.
#[tactic(auto, unfolding(crate::specs::Edits::put))]
fn put_in(words: &mut [i64], i: usize, g: GateWords)
    requires { Within words.old 2000 × ((gate_place i + gate_size ≤ length words.old) × (every (λ (b : ℕ). ltb b max_bits) (bits (gate_of g)) ≡ true)) }
    ensures { words.new ≡ put (counted true words.old (gate_of g)) i (gate_of g) }
{
    count_gate(words, g, true);
    write_gate(words, HEAD + i * GATE, g);
}

// Append a gate.
pub fn append(words: &mut [i64], g: GateWords) -> Verdict
    ensures value { result ≡ append_verdict words.old (gate g.kind g.a g.b g.c g.k) }
    ensures words_after { words.new ≡ appended words.old (gate g.kind g.a g.b g.c g.k) }
{
    let kept = Kept::read(words)?;
    let count = kept.gates();
    if room_in(words.len()) <= count as u64 {
        return Err(Refusal::NoPlace);
    }
    kept.ask_gate(count, g)?;
    put_in(words, count, g);
    Ok(())
}

// Remove the last gate, and leave zeros in its place.
pub fn remove_last(words: &mut [i64]) -> Verdict
    ensures value { result ≡ remove_verdict words.old }
    ensures words_after { words.new ≡ removed words.old }
{
    let kept = Kept::read(words)?;
    let i = kept.gates().saturating_sub(1);
    let old = kept.taken(i)?;
    count_gate(words, old, false);
    write_gate(words, HEAD + i * GATE, NO_GATE);
    Ok(())
}

// Put a gate in the place of the one at position i.
pub fn replace(words: &mut [i64], i: usize, g: GateWords) -> Verdict
    ensures value { result ≡ replace_verdict words.old i (gate g.kind g.a g.b g.c g.k) }
    ensures words_after { words.new ≡ replaced words.old i (gate g.kind g.a g.b g.c g.k) }
{
    let kept = Kept::read(words)?;
    let old = kept.taken(i)?;
    kept.ask_gate(i, g)?;
    count_gate(words, old, false);
    put_in(words, i, g);
    Ok(())
}

// Layers that fire together: their ends, and the first gate that shares a qubit or a classical bit with an earlier one of its layer.
// Kept (facts): a gate below the count of the list is what a loop over the list gives; a type for it would be made at each turn.
// Kept (buffers): the ends must close at the count of gates, and a gate is told by its place in the whole list, since a refusal names that; a slice of a layer would need its first place beside it.
ghost use Rattle.std.specs.Prelude.{◌≡◌, true, ◌+◌, ◌-◌, ◌*◌, ◌/◌, ◌≤◌, ◌<◌, length};
ghost use Rattle.verdict.specs.Questions.{first_no};
ghost use Rattle.gate.specs.Gate.{gate_size, gates_of};
ghost use Rattle.circuit.specs.Layers.{closing, layer_questions};
ghost use Rattle.circuit.specs.Inner.Firing.{first_clash, shares_from};

use gate::GATE;
use gate::judge::read_gate;
use verdict::{Refusal, Verdict};

// Whether the ends rise strictly from at least 1 and close at the gate count.
fn are_closing(ends: &[u32], count: usize) -> bool
    ensures { result ≡ closing count 0 ends.now }
{
    let mut last = 0;
    for &e in ends {
        if e <= last {
            return false;
        }
        last = e;
    }
    last as usize == count
}

// Whether gate i shares with one of those before it, from gate `start` on.
fn shares_from(words: &[u32], start: usize, i: usize) -> bool
    requires { (start ≤ i) × (i < length words.now / gate_size) }
    ensures { result ≡ shares_from words.now start i }
{
    let g = read_gate(words, i * GATE);
    for j in start..i {
        let h = read_gate(words, j * GATE);
        if g.shares(h) {
            return true;
        }
    }
    false
}

// Question 12 of the gates of a layer, from `start` to before `end`: none shares with an earlier one.
fn judge_layer(words: &[u32], start: usize, end: usize) -> Verdict
    requires { (start ≤ end) × (end ≤ length words.now / gate_size) }
    ensures { result ≡ first_clash start (end - start) (shares_from words.now start) }
{
    for i in start..end {
        if shares_from(words, start, i) {
            return Err(Refusal::ClashAt(i));
        }
    }
    Ok(())
}

// Questions 11 and 12: the ends, then the gates that fire together.
pub fn judge_layers(words: &[u32], ends: &[u32]) -> Verdict
    ensures { result ≡ first_no (layer_questions ends.now (gates_of words.now)) }
{
    if !are_closing(ends, words.len() / GATE) {
        return Err(Refusal::BadLayers);
    }
    let mut start = 0;
    for &e in ends {
        let end = e as usize;
        judge_layer(words, start, end)?;
        start = end;
    }
    Ok(())
}

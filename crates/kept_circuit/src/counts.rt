// The counts: whether they may be those of a circuit, and a gate more or less in them.
// Kept (buffers): the layout of the C interface gives each count its word; `are_up_to` cuts a part, as `all_up_to` of the specs has it, that each of its callers would have to cut.
// Kept (facts): that the bit of a gate has a count stands in four functions. `ask_gate` could answer a gate of a type that says so; each word would be read out of that type, and one caller wants the verdict alone.
// Kept (facts): `Within` stands with 4000, 3000 and 2000, as the counts may grow at each step: a type with its bound as a parameter, as `Few` of circuit, would be made anew of the lent words at each.
// Kept (kinds): one more or one less is a bool in `moved`, `move_at`, `mark` and `counted` of the specs, too: an enum of two would be turned into it in each clause.
ghost use Rattle.std.specs.Prelude.{◌≡◌, true, ℕ, ◌+◌, ◌^◌, ◌≤◌, ◌<◌, ltb, length};
ghost use Rattle.std.specs.List.{list_all};
ghost use Rattle.algebra.specs.Lists.{every};
ghost use Rattle.algebra.specs.Words.{up_to};
ghost use Rattle.gate.specs.Gate.{bits};
ghost use Rattle.gate.specs.Inner.Words.{gate_of};
ghost use Rattle.kept_circuit.specs.Kept.{max_bits, head_size, room, all_up_to, sound};
ghost use Rattle.kept_circuit.specs.Edits.{moved, move_at, mark, counted};
ghost use Rattle.kept_circuit.specs.Inner.Within.{Within};

use channel::layout::{follow, up_to};
use circuit::limits::{MAX_CLASSICAL_BITS, MAX_OPERATIONS, MAX_QUBITS};
use gate::GATE;
use gate::judge::GateWords;

// The layout: the counts, then five words a gate.
pub const QUBITS: usize = 0;

pub const BITS: usize = 1;

pub const GATES: usize = 2;

pub const WEIGHT: usize = 3;

// Measures and resets.
pub const SPLITS: usize = 4;

// Bits measured into.
pub const WRITTEN: usize = 5;

// Measures into bit 0; those into the other bits follow.
pub const MEASURES: usize = 6;

// The words of the counts.
pub const HEAD: usize = 70;

// Kept: a loop over all words without an early exit, which becomes vector code; `all` would leave at the first word that is none.
// Whether each word is a number from 0 to top.
fn each_up_to(words: &[i64], top: u64) -> bool
    ensures { result ≡ list_all (up_to top) words.now }
{
    let mut are = true;
    for i in 0..words.len() {
        are = are & up_to(top, words[i]);
    }
    are
}

// Whether n words from `at` on are numbers from 0 to top.
pub fn are_up_to(words: &[i64], at: usize, n: usize, top: u64) -> bool
    requires { at + n ≤ length words.now }
    ensures { result ≡ all_up_to words.now at n top }
{
    each_up_to(&words[at..at + n], top)
}

// The most gates that words of this length have places for and the limits allow.
pub fn room_in(size: usize) -> u64
    requires { head_size ≤ size }
    ensures { result ≡ room size }
{
    MAX_OPERATIONS.min(((size - HEAD) / GATE) as u64)
}

// Whether the counts may be those of a circuit.
#[tactic(auto, unfolding(crate::specs::Kept::sound))]
pub fn is_sound(words: &[i64]) -> bool
    ensures { result ≡ sound words.now }
{
    if words.len() < HEAD {
        return false;
    }
    up_to(MAX_QUBITS, words[QUBITS])
        && up_to(MAX_CLASSICAL_BITS, words[BITS])
        && up_to(room_in(words.len()), words[GATES])
        && are_up_to(words, WEIGHT, HEAD - WEIGHT, follow(words, GATES) as u64)
}

fn moved(x: usize, d: usize, more: bool) -> usize
    requires { x + d < 2 ^ 63 }
    ensures { result ≡ moved more x d }
{
    if more { x + d } else { x.saturating_sub(d) }
}

// Move the count in word `at` by d.
#[tactic(auto, unfolding(crate::specs::Edits::move_at))]
fn move_count(words: &mut [i64], at: usize, d: usize, more: bool)
    requires { Within words.old 4000 × ((at < head_size) × (d ≤ 1)) }
    ensures { words.new ≡ move_at more words.old at d }
{
    let count = follow(words, at);
    words[at] = moved(count, d, more) as i64;
}

// One measure into bit b more or less.
#[tactic(auto, unfolding(crate::specs::Edits::mark))]
fn mark_bit(words: &mut [i64], b: usize, more: bool)
    requires { Within words.old 3000 × (b < max_bits) }
    ensures { words.new ≡ mark more words.old b }
{
    let at = MEASURES + b;
    let before = follow(words, at);
    move_count(words, at, 1, more);
    let after = follow(words, at);
    if (before == 0) | (after == 0) {
        move_count(words, WRITTEN, 1, more);
    }
}

// A gate more or less in the counts.
#[tactic(auto, unfolding(crate::specs::Edits::counted))]
pub fn count_gate(words: &mut [i64], g: GateWords, more: bool)
    requires { Within words.old 2000 × (every (λ (b : ℕ). ltb b max_bits) (bits (gate_of g)) ≡ true) }
    ensures { words.new ≡ counted more words.old (gate_of g) }
{
    let weight = g.weight();
    let splits = g.splits();
    move_count(words, GATES, 1, more);
    move_count(words, WEIGHT, weight as usize, more);
    move_count(words, SPLITS, splits as usize, more);
    if let Some(b) = g.bit() {
        mark_bit(words, b as usize, more);
    }
}

// The gates' places: five words each, read and written.
// Kept (buffers): a gate's place is known by its position in the words that the caller lends; what is read and written there is said of the whole words.
// Kept (facts): that five words lie there is asked of a place by the three functions; a type for such a place would be made of a position at each of their calls.
// Kept (twins): `gate::judge::read_gate` reads words of 32 bits, of which any will do; these have 64, and must be found small before.
ghost use Rattle.std.specs.Prelude.{◌≡◌, true, ◌+◌, ◌≤◌, ◌<◌, length, nat_abs};
ghost use Rattle.std.proofs.lemmas.List.Edits.{sets};
ghost use Rattle.store.specs.Store.{max_word};
ghost use Rattle.channel.specs.Layout.{word};
ghost use Rattle.gate.specs.Gate.{gate_size};
ghost use Rattle.gate.specs.Inner.Words.{gate_of};
ghost use Rattle.kept_circuit.specs.Kept.{gate_words, kept_gate, all_up_to};

use channel::layout::follow;
use gate::judge::GateWords;

// Word k of the gate in the five words from `at` on.
fn gate_word(words: &[i64], at: usize, k: usize) -> u32
    requires { (k < gate_size) × ((at + gate_size ≤ length words.now) × (all_up_to words.now at gate_size max_word ≡ true)) }
    ensures { result ≡ nat_abs (word words.now (at + k)) }
{
    follow(words, at + k) as u32
}

// The gate in the five words from `at` on.
pub fn read_gate(words: &[i64], at: usize) -> GateWords
    requires { (at + gate_size ≤ length words.now) × (all_up_to words.now at gate_size max_word ≡ true) }
    ensures { gate_of result ≡ kept_gate words.now at }
{
    GateWords {
        kind: gate_word(words, at, 0),
        a: gate_word(words, at, 1),
        b: gate_word(words, at, 2),
        c: gate_word(words, at, 3),
        k: gate_word(words, at, 4),
    }
}

// Write a gate into the five words from `at` on.
pub fn write_gate(words: &mut [i64], at: usize, g: GateWords)
    requires { at + gate_size ≤ length words.old }
    ensures { words.new ≡ sets words.old at (gate_words (gate_of g)) }
{
    words[at] = g.kind as i64;
    words[at + 1] = g.a as i64;
    words[at + 2] = g.b as i64;
    words[at + 3] = g.c as i64;
    words[at + 4] = g.k as i64;
}

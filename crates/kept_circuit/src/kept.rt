// The words of a kept circuit whose counts are sound: what they count, and what may be put in and taken out.
// Kept (facts): that the bit of a gate has a count, as in counts.rt.
ghost use Rattle.std.specs.Prelude.{◌≡◌, true, false, ℕ, ◌+◌, ◌≤◌, ◌<◌, Err, ltb, MatchResult};
ghost use Rattle.algebra.specs.Lists.{every};
ghost use Rattle.verdict.specs.declared.Refusal.TheVariants.{BadCounts};
ghost use Rattle.verdict.specs.Questions.{first_no};
ghost use Rattle.gate.specs.Gate.{bits};
ghost use Rattle.gate.specs.Inner.Words.{gate_of};
ghost use Rattle.kept_circuit.specs.Kept.{max_bits, max_gates, head_size, count_at, gates_of, sound};
ghost use Rattle.kept_circuit.specs.Edits.{ask_gate, covers_bit, covers, takeable, take_questions};
ghost use Rattle.kept_circuit.specs.Inner.Taken.{Taken};

use crate::counts::{
    BITS, GATES, HEAD, MEASURES, QUBITS, SPLITS, WEIGHT, WRITTEN, are_up_to, is_sound,
};
use crate::places::read_gate;
use channel::layout::follow;
use gate::GATE;
use gate::judge::{Asking, GateWords};
use store::MAX_WORD;
use verdict::{Refusal, Verdict};

// The words of a kept circuit whose counts are those of its gates.
#[derive(Clone, Copy)]
pub struct Kept<'a> {
    pub words: &'a [i64],
    pub ghost counted: { sound words.now ≡ true },
}

impl<'a> Kept<'a> {
    // The words, if their counts are sound; 25 if not.
    pub fn read(words: &'a [i64]) -> Result<Kept<'a>, Refusal>
        ensures { MatchResult result (λ kept. (kept.words.now ≡ words.now) × (sound words.now ≡ true)) (λ e. (e ≡ BadCounts) × (sound words.now ≡ false)) }
    {
        if is_sound(words) {
            Ok(Kept { words })
        } else {
            Err(Refusal::BadCounts)
        }
    }

    // The count in word `at`.
    pub fn count(self, at: usize) -> u32
        requires { at < head_size }
        ensures value { result ≡ count_at self.entry.words.now at }
        ensures few { result ≤ max_gates }
    {
        follow(self.words, at) as u32
    }

    // How many gates there are.
    pub fn gates(self) -> usize
        ensures { result ≡ gates_of self.entry.words.now }
    {
        self.count(GATES) as usize
    }

    // Questions 4 to 6 of a gate at position i.
    pub fn ask_gate(self, i: usize, g: GateWords) -> Verdict
        ensures { result ≡ first_no (ask_gate self.entry.words.now i (gate_of g)) }
    {
        g.judge(i, self.count(QUBITS), Asking::Channel(self.count(BITS)))
    }

    // Whether no count falls below 0 as a measure into bit b goes.
    fn covers_bit(self, b: usize) -> bool
        requires { b < max_bits }
        ensures { result ≡ covers_bit self.entry.words.now b }
    {
        let count = self.count(MEASURES + b);
        (0 < count) & ((count != 1) | (0 < self.count(WRITTEN)))
    }

    // As a bit that the gate measures into goes.
    fn covers_bits(self, g: GateWords) -> bool
        requires { every (λ (b : ℕ). ltb b max_bits) (bits (gate_of g)) ≡ true }
        ensures { result ≡ every (covers_bit self.entry.words.now) (bits (gate_of g)) }
    {
        match g.bit() {
            Some(b) => self.covers_bit(b as usize),
            None => true,
        }
    }

    // As the gate goes.
    fn covers_gate(self, g: GateWords) -> bool
        requires { every (λ (b : ℕ). ltb b max_bits) (bits (gate_of g)) ≡ true }
        ensures { result ≡ covers self.entry.words.now (gate_of g) }
    {
        g.weight() <= self.count(WEIGHT) as u64
            && g.splits() <= self.count(SPLITS) as u64
            && self.covers_bits(g)
    }

    // Whether the gate at position i passes questions 4 to 6 and the counts cover it.
    #[tactic(auto, unfolding(crate::specs::Edits::takeable))]
    pub fn is_takeable(self, i: usize) -> bool
        requires { i < gates_of self.words.now }
        ensures { result ≡ takeable self.entry.words.now i }
    {
        let at = HEAD + i * GATE;
        if !are_up_to(self.words, at, GATE, MAX_WORD) {
            return false;
        }
        let g = read_gate(self.words, at);
        self.ask_gate(i, g).is_ok() && self.covers_gate(g)
    }

    // The gate at position i, to be taken out: 25, of the gate where there is one, then 21.
    pub fn taken(self, i: usize) -> Result<GateWords, Refusal>
        ensures { let l = self.entry.words.now in MatchResult result (λ g. Taken l i (gate_of g)) (λ e. Err e ≡ first_no (take_questions l i)) }
    {
        if self.gates() <= i {
            return Err(Refusal::NoGate);
        }
        if !self.is_takeable(i) {
            return Err(Refusal::BadCounts);
        }
        Ok(read_gate(self.words, HEAD + i * GATE))
    }
}

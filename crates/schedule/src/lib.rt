// A scheduler's work judged: a gate list, a reordered one, and a table that gives each new gate its old position.
// Kept (facts): a place below the lengths of lists that stand beside it; a type for it would have to hold the lists.
#![tactic(auto)]

ghost use Rattle.std.specs.Prelude.{◌≡◌, not, ℕ, ◌/◌, ◌≤◌, ◌<◌, length, get_or};
ghost use Rattle.algebra.specs.Lists.{all_below};
ghost use Rattle.verdict.specs.Questions.{first_no};
ghost use Rattle.gate.specs.Gate.{gate_size, gates_of};
ghost use Rattle.gate.specs.Inner.Words.{gate_of};
ghost use Rattle.schedule.specs.Questions.{list_questions, idle, bars, sound, table_questions, schedule_verdict};

use circuit::gates::judge_gates;
use gate::GATE;
use gate::judge::{Asking, GateWords, read_gate};
use verdict::{Refusal, Verdict};

// Questions 2, 4 and 5 of one list.
fn judge_list(words: &[u32], qubits: u32, bits: u32) -> Verdict
    ensures { result ≡ first_no (list_questions qubits bits words.now) }
{
    if words.len() % GATE != 0 {
        return Err(Refusal::MalformedAt(0));
    }
    judge_gates(words, qubits, Asking::Placing(bits))
}

// The gate at position i.
// Kept: the position is the table's or a loop's, and the list is asked at many of them.
fn gate_at(words: &[u32], i: usize) -> GateWords
    requires { i < length words.now / gate_size }
    ensures { gate_of result ≡ get_or (gates_of words.now) i idle }
{
    read_gate(words, i * GATE)
}

// A reordered gate list, with the list that it reorders and the old position of each of its gates.
// Kept: the new list and the table are two buffers of the C interface, whose lengths `judge_table` compares.
#[derive(Clone, Copy)]
pub struct Schedule<'a> {
    pub old: &'a [u32],
    pub new: &'a [u32],
    pub table: &'a [u32],
}

impl Schedule<'_> {
    // Whether the new gate at j stands in the way of a later one, g of old position k.
    fn is_barred(self, g: GateWords, k: u32, j: usize) -> bool
        requires { (j < length self.new.now / gate_size) × (j < length self.table.now) }
        ensures { let s = self.entry in result ≡ bars (gates_of s.new.now) s.table.now (gate_of g) k j }
    {
        let e = self.table[j];
        if e < k {
            return false;
        }
        if e == k {
            return true;
        }
        let h = gate_at(self.new, j);
        h.shares(g)
    }

    // Whether no new gate before i stands in the way of g.
    fn is_free(self, g: GateWords, k: u32, i: usize) -> bool
        requires { (i ≤ length self.new.now / gate_size) × (i ≤ length self.table.now) }
        ensures { let s = self.entry in result ≡ all_below i (λ (j : ℕ). not (bars (gates_of s.new.now) s.table.now (gate_of g) k j)) }
    {
        for j in 0..i {
            if self.is_barred(g, k, j) {
                return false;
            }
        }
        true
    }

    // Whether new position i may hold its gate.
    fn is_sound(self, i: usize) -> bool
        requires { (i < length self.new.now / gate_size) × (i < length self.table.now) }
        ensures { let s = self.entry in result ≡ sound (gates_of s.old.now) (gates_of s.new.now) s.table.now i }
    {
        let k = self.table[i];
        let place = k as usize;
        if self.old.len() / GATE <= place {
            return false;
        }
        let g = gate_at(self.new, i);
        let h = gate_at(self.old, place);
        if g != h {
            return false;
        }
        self.is_free(g, k, i)
    }

    // Question 15: equal lengths, then position by position.
    fn judge_table(self) -> Verdict
        ensures { let s = self.entry in result ≡ first_no (table_questions (gates_of s.old.now) (gates_of s.new.now) s.table.now) }
    {
        let count = self.old.len() / GATE;
        if (self.new.len() / GATE != count) | (self.table.len() != count) {
            return Err(Refusal::NotScheduleAt(0));
        }
        for i in 0..count {
            if !self.is_sound(i) {
                return Err(Refusal::NotScheduleAt(i));
            }
        }
        Ok(())
    }

    // Questions 2, 4 and 5 of the old list, then of the new one, then question 15. There are no limits, and question 6 is left to circuit_channel.
    pub fn judge(self, qubits: u32, bits: u32) -> Verdict
        ensures { let s = self.entry in result ≡ schedule_verdict qubits bits s.old.now s.new.now s.table.now }
    {
        judge_list(self.old, qubits, bits)?;
        judge_list(self.new, qubits, bits)?;
        self.judge_table()
    }
}

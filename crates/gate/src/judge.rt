// The questions that are asked of one gate, and what it counts for.
ghost use Rattle.std.specs.Prelude.{◌≡◌, ℕ, ◌+◌, ◌≤◌, eqb, ltb, length, take, drop};
ghost use Rattle.std.specs.List.{list_all};
ghost use Rattle.gate.specs.Gate.{gate_size, gate_at, arity, elem, distinct, bits, bit_of, formed, placed, supported, weight, splits};
ghost use Rattle.verdict.specs.Questions.{first_no};
ghost use Rattle.gate.specs.Inner.Words.{gate_of};
ghost use Rattle.gate.specs.Inner.Accepted.{names_qubits, bits_asked, may_split, accepted};
ghost use Rattle.gate.specs.Kinds.{Known};
ghost use Rattle.gate.specs.Questions.{three_answers, on_qubits, gate_questions};

use crate::kinds::Kind;
use verdict::{Refusal, Verdict};

// The five words of a gate.
#[derive(Clone, Copy, PartialEq, Eq)]
pub struct GateWords {
    // Kept: a word from outside may be no kind, which question 4 asks. A struct with a Kind in its place would be made at each gate that runs,
    // from the clause Ready that rows and tables ask now, and save their three `unreachable!`.
    pub kind: u32,
    pub a: u32,
    pub b: u32,
    pub c: u32,
    pub k: u32,
}

// Which call asks: circuit_channel, with its bit count; circuit_unitary; or judge_schedule, with its bit count, which leaves question 6 to the other two.
#[derive(Clone, Copy)]
pub enum Asking {
    Channel(u32),
    Unitary,
    Placing(u32),
}

impl Asking {
    // The bit count; circuit_unitary has no bits.
    fn bits(self) -> u32
        ensures { result ≡ bits_asked self }
    {
        match self {
            Asking::Channel(bits) | Asking::Placing(bits) => bits,
            Asking::Unitary => 0,
        }
    }

    // Whether a gate may be a measure or a reset.
    fn may_split(self) -> bool
        ensures { result ≡ may_split self }
    {
        match self {
            Asking::Channel(_) | Asking::Placing(_) => true,
            Asking::Unitary => false,
        }
    }
}

// The gate in the five words from `at` on.
// Kept: kept_circuit reads a gate from i64, word by word; one function of both would take the reading of a word.
// Lists of gates are asked out of order (layers, schedules, bits written later on), and each caller would show the bound of a slice of five words where it now shows that of `at`.
pub fn read_gate(words: &[u32], at: usize) -> GateWords
    requires { at + gate_size ≤ length words.now }
    ensures { gate_of result ≡ gate_at words.now at }
{
    GateWords {
        kind: words[at],
        a: words[at + 1],
        b: words[at + 2],
        c: words[at + 3],
        k: words[at + 4],
    }
}

// Kept: `used` counts the words that name qubits. Asked of a cut slice, the three questions of this form took a third of the time of judging a gate.
// Whether the first `used` of three words are below a bound.
fn are_below(used: usize, words: [u32; 3], bound: u32) -> bool
    ensures { result ≡ list_all (λ (w : ℕ). ltb w bound) (take used words) }
{
    let [a, b, c] = words;
    ((used < 1) | (a < bound)) & ((used < 2) | (b < bound)) & ((used < 3) | (c < bound))
}

// Whether the first `used` of three words are all different.
fn are_distinct(used: usize, words: [u32; 3]) -> bool
    ensures { result ≡ distinct (take used words) }
{
    let [a, b, c] = words;
    ((used < 2) | (a != b)) & ((used < 3) | ((a != c) & (b != c)))
}

// Whether the words behind the first `used` of three are 0.
fn are_zero(used: usize, words: [u32; 3]) -> bool
    ensures { result ≡ list_all (λ (w : ℕ). eqb w 0) (drop used words) }
{
    let [a, b, c] = words;
    ((0 < used) | (a == 0)) & ((1 < used) | (b == 0)) & ((2 < used) | (c == 0))
}

impl GateWords {
    // The kind that the first word names, if it names one.
    pub fn known_kind(self) -> Option<Kind>
        ensures { Known self.kind result }
    {
        Kind::try_from(self.kind).ok()
    }

    // How many of the words a, b, c name qubits.
    pub fn qubit_count(self) -> usize
        ensures value { result ≡ arity (gate_of self).kind }
        ensures few { result ≤ 3 }
    {
        match self.known_kind() {
            Some(kind) => kind.arity(),
            None => 0,
        }
    }

    // The classical bit that a measure writes.
    pub fn bit(self) -> Option<u32>
        ensures { result ≡ bit_of (gate_of self) }
    {
        match self.known_kind() {
            Some(Kind::Measure) => Some(self.b),
            _ => None,
        }
    }

    // Question 4.
    pub fn is_formed(self) -> bool
        ensures { result ≡ formed (gate_of self) }
    {
        let words = [self.a, self.b, self.c];
        match self.known_kind() {
            Some(Kind::Measure) => self.k == 0 && self.c == 0,
            Some(Kind::Rz) => self.k <= 8 && are_zero(1, words),
            Some(kind) => self.k == 0 && are_zero(kind.arity(), words),
            None => false,
        }
    }

    // Whether the qubits are below n and all different.
    pub fn is_on_qubits(self, n: u32) -> bool
        ensures { result ≡ on_qubits n (gate_of self) }
    {
        let used = self.qubit_count();
        let words = [self.a, self.b, self.c];
        are_below(used, words, n) && are_distinct(used, words)
    }

    // Question 5.
    pub fn is_placed(self, n: u32, bits: u32) -> bool
        ensures { result ≡ placed n bits (gate_of self) }
    {
        self.is_on_qubits(n) && self.bit().is_none_or(|b| b < bits)
    }

    // Question 6.
    pub fn is_supported(self) -> bool
        ensures { result ≡ supported (gate_of self) }
    {
        match self.known_kind() {
            Some(Kind::P | Kind::Rx | Kind::Ry | Kind::Cp | Kind::Crx | Kind::Cry | Kind::Crz) =>
                false,
            Some(Kind::Rz) => self.k != 8,
            _ => true,
        }
    }

    // Whether it measures into the classical bit.
    pub fn writes(self, bit: u32) -> bool
        ensures { result ≡ elem bit (bits (gate_of self)) }
    {
        self.kind == u32::from(Kind::Measure) && self.b == bit
    }

    // h, sx and ch weigh 1.
    pub fn weight(self) -> u64
        ensures { result ≡ weight (gate_of self) }
    {
        match self.known_kind() {
            Some(Kind::H | Kind::Sx | Kind::Ch) => 1,
            _ => 0,
        }
    }

    // A measure and a reset split each branch in two.
    pub fn splits(self) -> u64
        ensures { result ≡ splits (gate_of self) }
    {
        match self.known_kind() {
            Some(Kind::Measure | Kind::Reset) => 1,
            _ => 0,
        }
    }

    // Whether the first `used` of its three words name different qubits below n, and those behind them are 0.
    fn names_qubits(self, used: usize, n: u32) -> bool
        ensures { result ≡ names_qubits used n (gate_of self) }
    {
        let words = [self.a, self.b, self.c];
        are_zero(used, words) && are_below(used, words, n) && are_distinct(used, words)
    }

    // Whether every answer to questions 4 to 6 is yes, where a measure or a reset may stand or not.
    // Kept: one match where three would be asked of each gate; `judge_each` tells which question a gate fails.
    fn is_accepted(self, n: u32, bits: u32, may_split: bool) -> bool
        ensures { result ≡ accepted n bits may_split (gate_of self) }
    {
        match self.known_kind() {
            Some(
                Kind::H
                | Kind::X
                | Kind::Z
                | Kind::S
                | Kind::Sdg
                | Kind::T
                | Kind::Tdg
                | Kind::Y
                | Kind::Sx,
            ) => (self.k == 0) & self.names_qubits(1, n),
            Some(Kind::Rz) => (self.k < 8) & self.names_qubits(1, n),
            Some(Kind::Cnot | Kind::Cz | Kind::Swap | Kind::Cy | Kind::Ch) => (self.k == 0)
                & self.names_qubits(2, n),
            Some(Kind::Ccx | Kind::Ccz | Kind::Cswap) => (self.k == 0) & self.names_qubits(3, n),
            Some(Kind::Measure) => may_split
                & (self.k == 0)
                & (self.c == 0)
                & (self.a < n)
                & (self.b < bits),
            Some(Kind::Reset) => may_split & (self.k == 0) & self.names_qubits(1, n),
            _ => false,
        }
    }

    // Questions 4 to 6 of gate i, one by one.
    fn judge_each(self, i: usize, n: u32, asking: Asking) -> Verdict
        ensures { result ≡ first_no (gate_questions asking n i (gate_of self)) }
    {
        let formed = self.is_formed();
        let supported = self.is_supported();
        match asking {
            Asking::Channel(bits) => {
                let placed = self.is_placed(n, bits);
                first_fault(i, formed, placed, supported)
            }
            Asking::Unitary => {
                let placed = self.is_on_qubits(n);
                let splits = self.splits();
                first_fault(i, formed, placed, supported & (splits == 0))
            }
            Asking::Placing(bits) => {
                let placed = self.is_placed(n, bits);
                first_fault(i, formed, placed, true)
            }
        }
    }

    // Questions 4 to 6 of gate i.
    pub fn judge(self, i: usize, n: u32, asking: Asking) -> Verdict
        ensures { result ≡ first_no (gate_questions asking n i (gate_of self)) }
    {
        if self.is_accepted(n, asking.bits(), asking.may_split()) {
            return Ok(());
        }
        self.judge_each(i, n, asking)
    }
}

// Kept: the answers of three questions, of which the first no refuses; a struct of them would be built for this call alone.
fn first_fault(i: usize, formed: bool, placed: bool, supported: bool) -> Verdict
    ensures { result ≡ first_no (three_answers i formed placed supported) }
{
    if !formed {
        return Err(Refusal::MalformedAt(i));
    }
    if !placed {
        return Err(Refusal::OperandAt(i));
    }
    if !supported {
        return Err(Refusal::UnsupportedAt(i));
    }
    Ok(())
}

// Whether two gates share a qubit or a classical bit.
ghost use Rattle.std.specs.Prelude.{◌≡◌, ℕ, eqb};
ghost use Rattle.std.specs.List.{list_any};
ghost use Rattle.gate.specs.Gate.{elem, qubits, bits, meet, share};
ghost use Rattle.gate.specs.Inner.Words.{gate_of};

use super::judge::GateWords;

fn is_among(q: u32, words: &[u32]) -> bool
    ensures { result ≡ list_any (λ (w : ℕ). eqb q w) words.now }
{
    words.contains(&q)
}

impl GateWords {
    // Whether q is a qubit of the gate.
    fn has_qubit(self, q: u32) -> bool
        ensures { result ≡ elem q (qubits (gate_of self)) }
    {
        is_among(q, &[self.a, self.b, self.c][..self.qubit_count()])
    }

    // Whether some of the qubits is one of the gate's.
    fn has_one(self, qs: &[u32]) -> bool
        ensures { result ≡ list_any (λ (q : ℕ). elem q (qubits (gate_of self))) qs.now }
    {
        qs.iter().any(|&q| self.has_qubit(q))
    }

    // Whether some qubit is one of the other gate's.
    fn meets(self, other: GateWords) -> bool
        ensures { result ≡ meet (qubits (gate_of self)) (qubits (gate_of other)) }
    {
        other.has_one(&[self.a, self.b, self.c][..self.qubit_count()])
    }

    // Whether both measure into one classical bit.
    fn meets_in_bits(self, other: GateWords) -> bool
        ensures { result ≡ meet (bits (gate_of self)) (bits (gate_of other)) }
    {
        self.bit().is_some_and(|b| other.writes(b))
    }

    // Whether they share a qubit or a classical bit.
    pub fn shares(self, other: GateWords) -> bool
        ensures { result ≡ share (gate_of self) (gate_of other) }
    {
        self.meets(other) | self.meets_in_bits(other)
    }
}

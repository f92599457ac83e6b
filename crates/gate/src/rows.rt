// The rows of a gate's matrices on n qubits. Row r has entries in two columns alone: its own, r, and its partner's, which has the bits flipped that the gate may change.
// Kept (facts, together): n ≤ 5 stands in three functions here, Ready in two. A struct of a gate and n with both as ghost fields would be made by branches::run at each gate, from a clause on the whole circuit,
// and be taken apart again by each function: the masks need n and one qubit, and only n ≤ 5 would leave the clauses.
// Kept (switches): the arms of flips and controls are sums of masks of a kind's qubits, and none is a step that a caller could choose.
ghost use Rattle.std.specs.Prelude.{◌≡◌, ◌-◌, ◌^◌, ◌≤◌, ◌<◌};
ghost use Rattle.gate.specs.Inner.Words.{gate_of};
ghost use Rattle.gate.specs.Inner.Entries.{Ready, flips, controls};

use super::judge::GateWords;
use super::kinds::Kind;

// Kept: `weight_of` of pauli_words is its twin in a byte; one public function of both would be cast there, for one line.
// The weight of qubit q in a row or column number.
fn mask(n: u32, q: u32) -> usize
    requires { (n ≤ 5) × (q < n) }
    ensures { result ≡ 2 ^ (n - 1 - q) }
{
    1usize << (n - 1 - q)
}

// The bits of a row number that a gate may change.
pub fn flips(g: GateWords, n: u32) -> usize
    requires { (n ≤ 5) × Ready n (gate_of g) 0 }
    ensures { result ≡ flips n (gate_of g) }
{
    let Some(kind) = g.known_kind() else {
        unreachable!()
    };
    match kind {
        Kind::Swap => mask(n, g.a) + mask(n, g.b),
        Kind::Cswap => mask(n, g.b) + mask(n, g.c),
        Kind::Ccx | Kind::Ccz => mask(n, g.c),
        Kind::Cnot | Kind::Cz | Kind::Cy | Kind::Ch => mask(n, g.b),
        _ => mask(n, g.a),
    }
}

// The bits of a row number that are a gate's controls.
pub fn controls(g: GateWords, n: u32) -> usize
    requires { (n ≤ 5) × Ready n (gate_of g) 0 }
    ensures { result ≡ controls n (gate_of g) }
{
    let Some(kind) = g.known_kind() else {
        unreachable!()
    };
    match kind {
        Kind::Ccx | Kind::Ccz => mask(n, g.a) + mask(n, g.b),
        Kind::Cnot | Kind::Cz | Kind::Cy | Kind::Ch | Kind::Cswap => mask(n, g.a),
        _ => 0,
    }
}

// The entries of a row in its own column and in its partner's: numerators over the power of two of their operator.
#[derive(Clone, Copy)]
pub struct Row {
    pub own: [i64; 4],
    pub other: [i64; 4],
}

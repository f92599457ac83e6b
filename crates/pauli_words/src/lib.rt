// The words of Pauli programs: their nodes and operations judged, the axes by mask forms of the nodes.
#![tactic(auto)]

ghost use Rattle.std.specs.Prelude.{◌≡◌, ◌/◌, ◌≤◌, length};
ghost use Rattle.gate.specs.Gate.{gate_size};
ghost use Rattle.pauli_words.specs.Questions.{number_of};

pub mod masks;
pub mod nodes;
pub mod operations;

use gate::GATE;

// A Pauli program on qubits and classical bits: the initial store, a byte a bit, and the words of its nodes and of its operations.
#[derive(Clone, Copy)]
pub struct Program<'a> {
    pub qubits: u32,
    pub bits: u32,
    pub store: &'a [u8],
    pub nodes: &'a [u32],
    pub operations: &'a [u32],
}

impl<'a> Program<'a> {
    // How many nodes there are: the identity, X and Z of each qubit, and the listed ones.
    pub fn node_count(self) -> usize
        requires { (self.qubits ≤ 5) × (length self.nodes.now / gate_size ≤ 1024) }
        ensures { let p = self.entry in result ≡ number_of p.qubits (length p.nodes.now / gate_size) }
    {
        1 + 2 * (self.qubits as usize) + self.nodes.len() / GATE
    }
}

// All nodes that a program may have: the identity, X and Z of five qubits, and the listed ones.
pub const MAX_NODES: usize = 1035;

// The listed nodes, read from their words and judged in order, and the mask forms of all nodes.
// Kept (kinds, switches): a word's number becomes a Pauli in one match, that of `try_from`; the one number that is no Pauli's, TIMES, is asked for in `read` alone.
// Kept (buffers): n counts the qubits, not the words beside it.
// Kept (facts): n ≤ 5 bounds a shift and the first node; n is a number of qubits that a Single's qubit is compared with, and three of the four that ask it would open a type for it: `mask` hands it on.
ghost use Rattle.std.specs.Prelude.{◌≡◌, true, ◌+◌, ◌*◌, ◌/◌, ◌≤◌, ◌<◌, ◌^◌, ◌-◌, length, take, is_ok};
ghost use Rattle.verdict.specs.Questions.{first_no};
ghost use Rattle.gate.specs.Gate.{gate_size, gates_of};
ghost use Rattle.gate.specs.Inner.Words.{gate_of};
ghost use Rattle.pauli_nodes.specs.Inner.Masks.{mask_after, node_masks};
ghost use Rattle.pauli_words.specs.Words.{node_of, nodes_of};
ghost use Rattle.pauli_words.specs.Questions.{number_of, sound, node_questions, nodes_questions};
ghost use Rattle.pauli_words.specs.Inner.Code.{Numbered, node_in, ReadNode, JudgedNode};
ghost use Rattle.pauli_words.specs.Inner.Masks.{basis_masks, max_nodes};

use crate::masks::{Mask, referred};
use gate::GATE;
use gate::judge::{GateWords, read_gate};
use verdict::{Refusal, Verdict};

// A Pauli of one qubit.
#[derive(Clone, Copy)]
pub enum Pauli {
    I,
    X,
    Y,
    Z,
}

// A number that is no Pauli's.
#[derive(Clone, Copy)]
pub struct NoPauli;

// A node by its number, and the power of i before it.
#[derive(Clone, Copy)]
pub struct Reference {
    pub node: u32,
    pub turns: u32,
}

// A Pauli of a qubit, or the product of two nodes.
#[derive(Clone, Copy)]
pub enum Node {
    Single(u32, Pauli),
    Product(Reference, Reference),
}

// The kind word of a product; those below it are the numbers of the Paulis.
const TIMES: u32 = 4;

impl TryFrom<u32> for Pauli {
    type Error = NoPauli;

    ghost try_from_gives = { Numbered };

    fn try_from(number: u32) -> Result<Pauli, NoPauli> {
        match number {
            0 => Ok(Pauli::I),
            1 => Ok(Pauli::X),
            2 => Ok(Pauli::Y),
            3 => Ok(Pauli::Z),
            _ => Err(NoPauli),
        }
    }
}

// The weight of qubit q in a row number.
// Kept: gate::rows has this shift of a usize; a function of both would be public, over a trait of integers that shift, for the one line.
fn weight_of(n: u32, q: u32) -> u8
    requires { (q < n) × (n ≤ 5) }
    ensures { (result ≡ 2 ^ (n - 1 - q)) × (result < 32) }
{
    1u8 << (n - 1 - q)
}

impl Node {
    // The node in five words, if they are well-formed.
    fn read(w: GateWords) -> Option<Node>
        ensures { ReadNode (gate_of w) result }
    {
        let left = Reference {
            node: w.a,
            turns: w.b,
        };
        let right = Reference {
            node: w.c,
            turns: w.k,
        };
        let unused = (w.b == 0) & ((w.c == 0) & (w.k == 0));
        match w.kind {
            TIMES if (w.b < 4) & (w.k < 4) => Some(Node::Product(left, right)),
            kind if unused => Some(Node::Single(w.a, Pauli::try_from(kind).ok()?)),
            _ => None,
        }
    }

    // Whether the qubit is below n, and both nodes of a product are below `number`, the node's own.
    fn is_sound(self, n: u32, number: u32) -> bool
        ensures { result ≡ sound n number (node_in self) }
    {
        match self {
            Node::Single(qubit, _) => qubit < n,
            Node::Product(left, right) => (left.node < number) & (right.node < number),
        }
    }

    // The mask form of a node that passes the questions, from those of the nodes before it.
    fn mask(self, n: u32, masks: &[Mask]) -> Mask
        requires { (n ≤ 5) × (sound n (length masks.now) (node_in self) ≡ true) }
        ensures { result ≡ mask_after n masks.now (node_in self) }
    {
        match self {
            Node::Single(qubit, pauli) => Mask::single(weight_of(n, qubit), pauli),
            Node::Product(left, right) => {
                let a = referred(masks, left);
                let c = referred(masks, right);
                a.times(c)
            }
        }
    }
}

// Node i, where it passes the questions.
fn judge_node(w: GateWords, i: usize, n: u32, number: u32) -> Result<Node, Refusal>
    requires { number ≡ number_of n i }
    ensures { JudgedNode n i (gate_of w) result }
{
    let Some(node) = Node::read(w) else {
        return Err(Refusal::MalformedAt(i));
    };
    if !node.is_sound(n, number) {
        return Err(Refusal::BadNodeAt(i));
    }
    Ok(node)
}

// The mask forms of the identity, and of X and Z of each qubit.
fn fill_basis(n: u32, masks: &mut [Mask])
    requires { (n ≤ 5) × (number_of n 0 ≤ length masks.old) }
    ensures { take (number_of n 0) masks.new ≡ basis_masks n }
{
    masks[0] = Mask::identity();
    for q in 0..n {
        let w = weight_of(n, q);
        let at = 1 + 2 * (q as usize);
        masks[at] = Mask::single(w, Pauli::X);
        masks[at + 1] = Mask::single(w, Pauli::Z);
    }
}

// The questions of the listed nodes; where they are accepted, the mask form of each node is at its number.
pub fn judge_nodes(words: &[u32], n: u32, masks: &mut [Mask]) -> Verdict
    requires { (n ≤ 5) × (number_of n (length words.now / gate_size) ≤ length masks.old) × (length masks.old ≤ max_nodes) }
    ensures value { result ≡ first_no (nodes_questions n 0 (gates_of words.now)) }
    ensures gate_size_after { is_ok result ≡ true → take (number_of n (length words.now / gate_size)) masks.new ≡ node_masks n (nodes_of words.now) }
{
    fill_basis(n, masks);
    let first = 1 + 2 * n;
    for i in 0..words.len() / GATE {
        let number = first + i as u32;
        let node = judge_node(read_gate(words, i * GATE), i, n, number)?;
        let at = number as usize;
        masks[at] = node.mask(n, &masks[..at]);
    }
    Ok(())
}

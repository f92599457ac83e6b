// Circuits: limits, what a gate list asks for, and the questions in both orders.
#![tactic(auto)]

pub mod footprint;
pub mod gates;
pub mod layers;
pub mod limits;
pub mod questions;
pub mod sizes;

// A circuit, lent: the bits that its store holds at the start, and its gates' words.
#[derive(Clone, Copy)]
pub struct Circuit<'a> {
    pub qubits: u32,
    pub bits: u32,
    pub store: &'a [u8],
    pub gates: &'a [u32],
}

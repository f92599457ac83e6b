// The gates of a circuit: the questions asked of one gate, and the rows of its matrices.
#![tactic(auto)]

pub mod judge;
pub mod kinds;
pub mod rows;
pub mod share;
pub mod tables;

// The words of a gate.
pub const GATE: usize = 5;

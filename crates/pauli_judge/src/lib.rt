// The questions of Pauli programs, in order.
#![tactic(auto)]

pub mod footprint;
pub mod questions;
pub mod sizes;

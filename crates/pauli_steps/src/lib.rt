// The operators of Pauli programs, by their rows.
#![tactic(auto)]

pub mod coefficients;
pub mod rows;

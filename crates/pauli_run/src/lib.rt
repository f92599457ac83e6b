// Pauli programs, run on branches in lent words.
#![tactic(auto)]

pub mod measures;
pub mod run;

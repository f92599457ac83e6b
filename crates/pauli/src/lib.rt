// The judge of Pauli programs: programs as quantum channels.
#![tactic(auto)]

pub mod call;

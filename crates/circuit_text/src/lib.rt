// The text of a circuit: decimal numbers, read as a program's input.
#![tactic(auto)]

pub mod input;
mod numbers;

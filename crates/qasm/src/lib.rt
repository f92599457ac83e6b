// OpenQASM 2: a circuit read from the text that laboratories exchange, and written as one.
#![tactic(auto)]

pub mod bytes;
mod names;
mod pieces;
pub mod reader;
mod steps;
pub mod tokens;

// Matrices as words.
#![tactic(auto)]

pub mod global_phase;
pub mod words;

// Whether two matrices are equal up to a global phase.
#[derive(Clone, Copy)]
pub enum Phase {
    Equivalent,
    Different,
}

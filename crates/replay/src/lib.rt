// Replays of recorded answers: a text of numbers is read, the calls are made, their answers are held against the record, and agreement is counted.
#![tactic(auto)]

pub mod answers;
pub mod calls;
pub mod count;
pub mod input;
pub mod lines;
pub mod numeral;
pub mod progress;
pub mod record;
pub mod scalars;
pub mod sum;
pub mod tally;
pub mod words;

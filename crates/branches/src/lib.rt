// Circuits run on branches in lent words.
#![tactic(auto)]

pub mod bank;
pub mod cores;
pub mod outcome;
pub mod project;
pub mod run;
pub mod split;

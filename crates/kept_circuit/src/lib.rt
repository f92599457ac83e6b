// A circuit kept in lent words with its counts: started empty, appended to, its last gate removed, a gate replaced.
#![tactic(auto)]

pub mod counts;
pub mod edits;
pub mod kept;
pub mod places;

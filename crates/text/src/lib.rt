// Texts in ASCII: decimal numbers read, and bytes and numbers written into lent room.
#![tactic(auto)]

pub mod bytes;
pub mod number;
pub mod page;

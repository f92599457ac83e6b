// The judge: circuits as quantum channels.
#![tactic(auto)]

pub mod call;

// The recorded cases, by what their calls are given: each reads that, makes the calls and holds their answers against the record.
#![tactic(auto)]

mod channels;
mod circuits;
mod compared;
mod edits;
pub mod kinds;
mod listings;
mod lists;
mod numbers;
mod programs;
mod reading;
mod schedules;
mod texts;

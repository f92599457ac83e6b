// Answers in words for people: numbers as mathematics writes them, states as kets, places in a text, refusals as sentences. Texts are bytes in UTF-8, put into lent room.
#![tactic(auto)]

pub mod numbers;
pub mod places;
pub mod reasons;
pub mod states;

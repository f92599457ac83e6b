// The archive for programs in C and Rust: each call under its name of include/foreituka.h, in one line. The bodies are the c_ crates'.
#![tactic(auto)]

pub mod answering;
pub mod channels;
pub mod circuits;
pub mod forms;
pub mod kept;
pub mod matrices;
pub mod programs;
pub mod scalars;
pub mod schedules;
pub mod texts;
pub mod work_lists;

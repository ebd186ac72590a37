// The lines that the program `encipher` reads, and what it answers to each.
#![tactic(auto)]

pub mod chosen;
pub mod session;

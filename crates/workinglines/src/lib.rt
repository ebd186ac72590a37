// The lines that the program `workings` reads, and what it answers to each.
#![tactic(auto)]

pub mod session;
pub mod topic;

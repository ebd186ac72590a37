// The lines that the program `marktrace` reads, and what a mark store answers to each.
#![tactic(auto)]

pub mod order;
pub mod start;
pub mod supply;

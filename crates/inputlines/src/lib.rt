// Lines of a program's input: a text cut at its first line feed, and what a line tells.
#![tactic(auto)]

pub mod fault;
pub mod line;
pub mod opening;

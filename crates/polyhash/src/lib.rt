// The hash of a string of bytes under a block, which runs over the string in pieces of any length.
#![tactic(auto)]

pub mod running;

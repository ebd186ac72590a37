// The lines in which a sheet is written down: their form, and what can be wrong with them.
#![tactic(auto)]

pub mod fault;
pub mod fields;
pub mod frames;
pub mod layout;

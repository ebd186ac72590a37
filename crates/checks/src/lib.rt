// Checking sheets, and reading checked ones at any offset.
#![tactic(auto)]

pub mod fault;
pub mod sheet;

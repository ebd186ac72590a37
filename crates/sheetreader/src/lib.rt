// Reading a sheet's lines: line 1 is judged before any other, and nothing is stored.
#![tactic(auto)]

mod line;
pub mod sheet;

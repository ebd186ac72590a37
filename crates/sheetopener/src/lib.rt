// Opening a sheet's lines: they are read, the tag is confirmed, and only then are header and message given out.
#![tactic(auto)]

mod body;
pub mod fault;
pub mod open;
mod read;

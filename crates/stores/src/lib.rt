// Mark stores: a mark that only rises and survives a power failure, kept as a number or in the bytes of a strip.
#![tactic(auto)]

pub mod fault;
pub mod reading;
pub mod register;
pub mod store;
pub mod strip;
pub mod supply;

// Block ciphers: what one is, the practice cipher, and code that serves every one.
#![tactic(auto)]

pub mod cipher;
pub mod fault;
pub mod generic;
pub mod practice;

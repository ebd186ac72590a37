// Sealing: a sealer that issues nonces from a stored mark, and the drafts that it hands out, fed piece by piece.
#![tactic(auto)]

pub mod batch;
pub mod draft;
pub mod fault;
pub mod sealer;
mod words;

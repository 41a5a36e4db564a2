// The question "Who put this word here" and its answer as text. Document 02, request 10.

#![tactic(auto)]

pub mod address;
pub mod line;

// Who put this word here: the last record of a trace that wrote a word of RAM. What is tested, and what
// the answer is. Document 02, request 10.

#![tactic(auto)]

pub mod standing;
pub mod tests;
pub mod values;

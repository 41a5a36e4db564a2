// Who put each word of RAM where it is, for every address at once. Document 02, request 10.

#![tactic(auto)]

pub mod mark;
pub mod table;
pub mod tests;

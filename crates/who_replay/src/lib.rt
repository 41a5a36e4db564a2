// A trace replayed with the question who put a word where it is: for one address, and for every address at once.
// Document 02, request 10.

#![tactic(auto)]

pub mod fill;
pub mod question;
pub mod taken;

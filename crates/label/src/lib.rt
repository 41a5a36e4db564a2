// A label on shared pages: which cells' windows meet. Document 02, request 1.

#![tactic(auto)]

pub mod one;
pub mod whole;

// The label on shared pages as text. Document 02, request 1.

#![tactic(auto)]

pub mod printed;

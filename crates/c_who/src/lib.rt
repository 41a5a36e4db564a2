// Who put a word where it is, for callers in C and Rust.

#![tactic(auto)]

pub mod origins;

// The bus controller, for callers in C and Rust.

#![tactic(auto)]

pub mod numbers;
pub mod runs;

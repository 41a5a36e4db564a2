// What is told of an area, the whole-area check, labels and descriptions, as what goes back to callers in C and Rust.

#![tactic(auto)]

pub mod checks;
pub mod descriptions;
pub mod labels;

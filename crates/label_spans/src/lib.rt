// The windows of all cells, read once. Below the label.

#![tactic(auto)]

pub mod span;

// The third layer: what a command looks up: its cell, and whether it is illegal or busy. Document 01, "What one message
// does", rule 2.

#![tactic(auto)]

pub mod target;

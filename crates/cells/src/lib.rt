// The second layer: cells and the stack. Document 01, "Cells and windows".

#![tactic(auto)]

pub mod cell;
pub mod stack;

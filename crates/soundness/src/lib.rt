// What a cell and the stack are like: where they lie, and why one is unsound. Document 01, "Cells and windows".

#![tactic(auto)]

pub mod cell;
pub mod faults;
pub mod ground;
pub mod stack;

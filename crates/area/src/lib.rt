// The second layer: the whole-area check; a cell by its number. Document 01, "Cells and windows".

#![tactic(auto)]

pub mod area;
pub mod numbered;

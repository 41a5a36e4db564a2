// The second layer: windows of RAM, and wrapping inside them. Document 01, "Cells and windows".

#![tactic(auto)]

pub mod window;

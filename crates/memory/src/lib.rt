// The second layer: RAM, the memory map, kinds of cell. Document 01, "Memory map".

#![tactic(auto)]

pub mod kind;
pub mod map;
pub mod ram;

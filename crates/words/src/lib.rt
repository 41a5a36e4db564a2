// The bottom layer: command words, settings, what is remembered, bits, the numbers that refuse. Document 01, "Words,
// records, settings".

#![tactic(auto)]

pub mod bits;
pub mod command;
pub mod number;
pub mod refusal;
pub mod remembered;
pub mod settings;
pub mod sizes;

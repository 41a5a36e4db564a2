// Standard input and output, for the programs. What fails there is told on standard error.

#![tactic(auto)]

pub mod input;
pub mod output;

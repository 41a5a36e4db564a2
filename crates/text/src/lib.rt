// The fourth layer: the lines that the trace program prints, as bytes. Document 01, "Trace program".

#![tactic(auto)]

pub mod columns;
pub mod decimal;
pub mod line;
pub mod table;
pub mod text;

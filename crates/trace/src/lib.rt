// The fourth layer: walking a trace, and the program's whole output. Document 01, "Trace program".

#![tactic(auto)]

pub mod walk;

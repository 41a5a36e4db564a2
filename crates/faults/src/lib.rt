// The bottom layer: the faults of a message, from its record alone. Document 01, "What one message does", rule 1.

#![tactic(auto)]

pub mod fault;

// Where a word of RAM comes from, by the plan of the message that wrote it. Document 02, request 10.

#![tactic(auto)]

pub mod origin;

// The third layer: a plan carried out, as one ordered list of writes to RAM and one to the reply; words are copied along
// a window in two runs. Document 01, "What one message does", rules 3, 4 and 6.

#![tactic(auto)]

pub mod carry;
pub mod part;
pub mod reply;
pub mod runs;
pub mod send;
pub mod store;

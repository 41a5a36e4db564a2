// The third layer: an accepted message is decided, by small functions, into one value, the plan. Document 01, "What one
// message does", rules 3 to 9: the words stored and sent and where the pointer goes (act, motion), block status and
// status word (report), the deed in the cell, the entry on the stack, the interrupt word, what is remembered.

#![tactic(auto)]

pub mod act;
pub mod deed;
pub mod entry;
pub mod motion;
pub mod plan;
pub mod report;

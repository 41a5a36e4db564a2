// The words of a bus controller's instruction list: the op code word, its condition, the general-purpose flags, and what
// a message's record tells the conditions. Document 02, request 14.

#![tactic(auto)]

pub mod condition;
pub mod flags;
pub mod number;
pub mod opcode;
pub mod outcome;

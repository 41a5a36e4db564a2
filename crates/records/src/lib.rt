// The bottom layer: the record value, its flags, and the rules that it keeps. Document 01, "Words, records,
// settings".

#![tactic(auto)]

pub mod transfer;
pub mod value;

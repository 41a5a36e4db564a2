// The bottom layer: 80 bytes and a record value, read and written by one layout. Document 01, "Words, records,
// settings".

#![tactic(auto)]

pub mod reader;
pub mod round_trip;
pub mod writer;

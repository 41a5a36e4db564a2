// The bottom layer: records of 96 bytes, which have the 80 of a record, a longer time tag and a member number; and the
// way from one to the other. Document 02, request 8.

#![tactic(auto)]

pub mod conversion;
pub mod reader;
pub mod round_trip;
pub mod value;
pub mod writer;

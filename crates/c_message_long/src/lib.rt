// One message from the bytes of a long record, for callers in C and Rust.

#![tactic(auto)]

pub mod from_long;

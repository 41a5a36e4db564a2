// One message from record bytes, for callers in C and Rust.

#![tactic(auto)]

pub mod from_bytes;

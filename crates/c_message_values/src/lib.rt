// One message from a record value, for callers in C and Rust.

#![tactic(auto)]

pub mod from_value;

// Long records for callers in C and Rust: the reader, the writer, and the way from old records to new and back.

#![tactic(auto)]

pub mod calls;

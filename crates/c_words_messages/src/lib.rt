// What callers in C and Rust lend for a message, as a value, and its answer as the words that go back to them.

#![tactic(auto)]

pub mod answers;
pub mod values;

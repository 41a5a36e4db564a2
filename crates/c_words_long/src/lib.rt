// What callers in C and Rust lend for long records, as values, and long records as the words and bytes that go back.

#![tactic(auto)]

pub mod long_values;

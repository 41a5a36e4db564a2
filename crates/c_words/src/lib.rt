// What every caller in C and Rust lends, settings and what is remembered, as values; and how words go back to a caller.

#![tactic(auto)]

pub mod over;
pub mod setup;

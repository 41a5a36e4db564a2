// The third layer: one message is tested, and then refused or carried out by its plan.
// Document 01, "What one message does" and "Numbers that refuse".

#![tactic(auto)]

pub mod answer;
pub mod heard;
pub mod long;
pub mod perform;
pub mod serve;
pub mod tested;
pub mod tests;

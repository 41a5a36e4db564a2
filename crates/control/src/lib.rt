// A bus controller that runs an instruction list: the machine, a step of it, and a run under a budget. Document 02,
// request 14.

#![tactic(auto)]

mod fetched;
pub mod machine;
pub mod run;
pub mod start;
pub mod step;

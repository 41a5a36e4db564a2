// The fourth layer: a view of a trace, a record at a time. Document 01, "Required forms by place".

#![tactic(auto)]

pub mod view;

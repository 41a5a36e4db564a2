// The second layer: mode commands, from the command word and settings alone: the table of codes, the forms that it
// defines, the words expected, where data words live, the marks, and what a code does to them. Document 02, request 5;
// no message uses it yet.

#![tactic(auto)]

pub mod code;
pub mod form;
pub mod marks;
pub mod place;
pub mod remembered;
pub mod table;

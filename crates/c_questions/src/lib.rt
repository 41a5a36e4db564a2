// The proved terminal for callers in C and Rust: numbers and slices only. A slice passes as a pointer and then a
// length. The C header is include/solkverva.h. What carries messages out is in c_message_bytes, c_message_values,
// c_message_long and c_who, each a library of its own. What a caller links is the archive of c_questions_c, which has these
// functions under their names and contracts, and so with each of the others.

#![tactic(auto)]

pub mod calls;
pub mod descriptions;

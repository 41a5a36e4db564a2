// Beside the message's layer: what demand 3 asks, as code. It says of a message whether it belongs in a list of which
// demand 3 speaks, and of two neighbours whether they may change places.

#![tactic(auto)]

pub mod neighbours;

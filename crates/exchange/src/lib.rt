// Demand 3: neighbours of a list of messages may be exchanged. The statement is specs/Exchanged.antt, and
// proofs/Theorem.antt proves it; there is no code.

#![tactic(auto)]

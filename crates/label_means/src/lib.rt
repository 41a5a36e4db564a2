// What the printed label means for a message: whose words may stand in a window. The statement is specs/Means.antt, and
// proofs/Means.antt proves it; there is no code.

#![tactic(auto)]

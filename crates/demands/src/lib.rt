// The three demands, over all entry points: the statements are specs/First.antt, Second.antt and Third.antt, with
// Exported.antt for callers in C and Rust and Control.antt for the bus controller, and proofs/ has a value of each. There
// is no code here.

#![tactic(auto)]

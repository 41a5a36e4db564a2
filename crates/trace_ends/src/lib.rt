// The fourth layer: the two ends of what the programs read and print, the image before the first record and the lines
// after the last. Document 01, "Trace program".

#![tactic(auto)]

pub mod image;
pub mod last_lines;

// Cells, their marks and refusals in words: what the text of the label and that of who put a word there are made of.

#![tactic(auto)]

pub mod wording;

// Runs of words, in RAM, in the reply and in a record.
use crate::show::tell;
use memory::ram::{put, word_at};
use std::io::Print;

// The first `n` words, or all where there are fewer.
pub(crate) fn front(words: &mut [u16], n: usize) -> &mut [u16] {
    let end = n.min(words.len());
    &mut words[..end]
}

// The same of words or bytes, to be read.
pub(crate) fn front_of<T>(items: &[T], n: usize) -> &[T] {
    &items[..n.min(items.len())]
}

// `first` at `from`, and at each of the next places, `n` in all, `step` more than at the one before.
pub(crate) fn fill(ram: &mut [u16], from: u16, n: u16, first: u16, step: u16) {
    let mut word = first;
    for i in 0..n {
        put(ram, usize::from(from) + usize::from(i), word);
        word = word.wrapping_add(step);
    }
}

pub(crate) fn shown(rt: &impl Print, ram: &[u16], from: u16, n: u16) {
    for i in 0..n {
        let word = word_at(ram, usize::from(from) + usize::from(i));
        tell(rt, format_args!(" {word:04X}"));
    }
}

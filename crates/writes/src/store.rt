// Words stored in a window.
ghost use Rattle.std.specs.Prelude.{◌≡◌};
ghost use Rattle.memory.specs.Writes.{apply_writes};
ghost use Rattle.writes.specs.Copies.{data_writes};

use crate::runs::{copy_run, runs_of};
use memory::ram::{put, word_at};
use records::value::Words;
use windows::window::{Window, place};

// The stored words, one by one, each at its place in the window.
#[tactic(auto, using(memory::proofs::Writes::apply_more), unfolding(memory::specs::Writes::apply_writes, memory::specs::Rows::row))]
fn store_each(ram: &mut [u16], w: Window, words: &[u16], n: u16)
    ensures { ram.new ≡ apply_writes (data_writes w words.now n) ram.old }
{
    for k in 0..n {
        put(ram, place(w, k), word_at(words, usize::from(k)));
    }
}

// The stored words, from the pointer on, wrapping inside the window: a single word by itself, since a run is copied by a
// call, and else in two runs, where all of them lie in RAM. They come by value, so that the compiler puts them in order
// for a copy only here, where they are stored.
#[tactic(auto, unfolding(memory::specs::Writes::apply_writes, memory::specs::Rows::row))]
fn store_some(ram: &mut [u16], w: Window, words: Words, n: u16)
    ensures { ram.new ≡ apply_writes (data_writes w words n) ram.old }
{
    if n == 1 {
        put(ram, place(w, 0), words[0]);
    } else if let Some(r) = runs_of(w, ram.len(), n)
        && n <= 32
    {
        copy_run(ram, r.pointer, &words, 0, r.first);
        copy_run(ram, r.start, &words, r.first, r.rest);
    } else {
        store_each(ram, w, &words, n);
    }
}

// For no word nothing is worked out.
#[tactic(auto, unfolding(memory::specs::Writes::apply_writes, memory::specs::Rows::row))]
pub fn store_words(ram: &mut [u16], w: Window, words: Words, n: u16)
    ensures { ram.new ≡ apply_writes (data_writes w words n) ram.old }
{
    if n != 0 {
        store_some(ram, w, words, n);
    }
}

// Runs: words copied straight on. A walk around a window is two of them, up to its end and then from its start.
ghost use Rattle.std.specs.Prelude.{◌≡◌, ◌+◌, ◌≤◌, length, cond, Some, None};
ghost use Rattle.memory.specs.Writes.{apply_writes};
ghost use Rattle.writes.specs.Runs.{run_writes, goes_once, runs_of};

use windows::window::{Window, fits_below};

// Where the two runs of a walk begin, and how many words each has.
#[derive(Clone, Copy, Debug, PartialEq, Eq)]
pub struct Runs {
    pub pointer: usize,
    pub first: usize,
    pub start: usize,
    pub rest: usize,
}

// Whether the window lies in RAM of this length, and a walk of n words passes its end once at most. So it is for every
// sound message: then no place is worked out, and none tested, for each word.
#[tactic(auto, unfolding(crate::specs::Runs::goes_once))]
fn goes_once(w: Window, words: usize, n: u16) -> bool
    ensures { result ≡ goes_once w words n }
{
    w.offset < w.size && n <= w.size && fits_below(w, words)
}

// The runs of n words, from the pointer up to the window's end, then from its start, where the walk goes once.
#[tactic(auto, unfolding(crate::specs::Runs::runs_of, crate::specs::Runs::goes_once))]
pub(crate) fn runs_of(w: Window, words: usize, n: u16) -> Option<Runs>
    ensures { result ≡ cond (goes_once w words n) (Some (runs_of w n)) None }
{
    if !goes_once(w, words, n) {
        return None;
    }
    let count = usize::from(n);
    let start = usize::from(w.start);
    let end = start + usize::from(w.size);
    let pointer = start + usize::from(w.offset);
    let first = count.min(end - pointer);
    Some(Runs {
        pointer,
        first,
        start,
        rest: count - first,
    })
}

// n words of `from`, beginning with its place `first`, straight on from place `at`. A `for`: `copy_from_slice` is a call
// here, and a message takes up to 27 instructions more with it.
#[tactic(auto, using(memory::proofs::Writes::apply_more), unfolding(memory::specs::Writes::apply_writes, memory::specs::Rows::row))]
pub(crate) fn copy_run(to: &mut [u16], at: usize, from: &[u16], first: usize, n: usize)
    requires { (at + n ≤ length to.old) × (first + n ≤ length from.now) }
    ensures { to.new ≡ apply_writes (run_writes at from.now first n) to.old }
{
    for k in 0..n {
        to[at + k] = from[first + k];
    }
}

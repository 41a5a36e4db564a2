// Words sent from a window, behind the first place of the reply.
ghost use Rattle.std.specs.Prelude.{◌≡◌};
ghost use Rattle.memory.specs.Writes.{apply_writes};
ghost use Rattle.writes.specs.Copies.{sent_writes};

use crate::runs::{copy_run, runs_of};
use memory::ram::{put, word_at};
use windows::window::{Window, place};

// The words sent, one by one, each from its place in the window.
#[tactic(auto, using(memory::proofs::Writes::apply_more), unfolding(memory::specs::Writes::apply_writes, memory::specs::Rows::row))]
fn send_each(ram: &[u16], reply: &mut [u16], w: Window, n: u16)
    ensures { reply.new ≡ apply_writes (sent_writes ram.now w n) reply.old }
{
    for k in 0..n {
        put(reply, usize::from(k) + 1, word_at(ram, place(w, k)));
    }
}

// The words sent, read as they are stored: a single word by itself, and else in two runs, where all of them lie in RAM and
// there is room for them.
#[tactic(auto, unfolding(memory::specs::Writes::apply_writes, memory::specs::Rows::row))]
pub fn send_words(ram: &[u16], reply: &mut [u16], w: Window, n: u16)
    ensures { reply.new ≡ apply_writes (sent_writes ram.now w n) reply.old }
{
    if n == 1 {
        put(reply, 1, word_at(ram, place(w, 0)));
    } else if let Some(r) = runs_of(w, ram.len(), n)
        && usize::from(n) < reply.len()
    {
        copy_run(reply, 1, ram, r.pointer, r.first);
        copy_run(reply, 1 + r.first, ram, r.start, r.rest);
    } else {
        send_each(ram, reply, w, n);
    }
}

// Rule 6: the entry on the stack.
ghost use Rattle.std.specs.Prelude.{◌≡◌};
ghost use Rattle.plan.specs.Entry.{entry_in};

use crate::motion::pointer_to;
use windows::window::{Window, place, rolls_over};

// Where the descriptor goes, where the stack pointer stands then, and whether it went round.
#[derive(Clone, Copy, Debug, PartialEq, Eq)]
pub struct Entry {
    pub pointer: u16,
    pub after: u16,
    pub wrapped: bool,
}

// In the block around the stack pointer.
pub(crate) fn entry_in(pointer: u16, block: Window) -> Entry
    ensures { result ≡ entry_in pointer block }
{
    Entry {
        pointer,
        after: pointer_to(place(block, 4)),
        wrapped: rolls_over(block, 4),
    }
}

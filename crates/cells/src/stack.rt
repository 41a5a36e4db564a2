// The active stack: its pointer, its block, whether it is sound.
ghost use Rattle.std.specs.Prelude.{◌≡◌};
ghost use Rattle.cells.specs.Stack.{stack_pointer, stack_window, stack_fits, stack_sound};

use memory::map::stack_pointer_place;
use memory::ram::word_at;
use windows::window::{Window, aligned_around, fits_below, meets_fixed};
use words::settings::Settings;

#[tactic(auto, unfolding(crate::specs::Stack::stack_pointer))]
pub fn stack_pointer(ram: &[u16], s: Settings) -> u16
    ensures { result ≡ stack_pointer ram.now s }
{
    word_at(ram, stack_pointer_place(s.area))
}

// The block aligned to the stack size around the stack pointer.
#[tactic(auto, unfolding(crate::specs::Stack::stack_window))]
pub fn stack_window(ram: &[u16], s: Settings) -> Window
    ensures { result ≡ stack_window ram.now s }
{
    aligned_around(stack_pointer(ram, s), s.stack_size)
}

// Over the pointer and the block, for whoever has worked them out. Early returns, since of one `&&` the compiler makes
// every test (`docs/BENCH.md`).
pub fn stack_fits(words: usize, pointer: u16, block: Window) -> bool
    ensures { result ≡ stack_fits words pointer block }
{
    if !fits_below(block, words) {
        return false;
    }
    if meets_fixed(block) {
        return false;
    }
    pointer % 4 == 0 && (pointer as usize) + 4 <= words
}

#[tactic(auto, unfolding(crate::specs::Stack::stack_sound))]
pub fn stack_sound(ram: &[u16], s: Settings) -> bool
    ensures { result ≡ stack_sound ram.now s }
{
    stack_fits(ram.len(), stack_pointer(ram, s), stack_window(ram, s))
}

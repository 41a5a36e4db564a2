// A message tested by its command: refused, or let through with what the tests worked out.
ghost use Rattle.std.specs.Prelude.{◌≡◌, IfOk};
ghost use Rattle.words.specs.Refusal.{first_of};
ghost use Rattle.words.specs.Refusals.{number_in};
ghost use Rattle.message.specs.Performed.{perform_tests, found_for};

use crate::tests::address_refusal;
use cells::cell::{sound_within, window_of};
use cells::stack::{stack_fits, stack_pointer, stack_window};
use lookup::target::{Target, cell_for, target_with};
use memory::map::ram_refused;
use windows::window::Window;
use words::refusal::Refusal;
use words::settings::Settings;

// Stack, cell and window are worked out once, by the tests, and handed on to the plan.
#[derive(Clone, Copy, Debug, PartialEq, Eq)]
pub struct Found {
    pub target: Target,
    pub pointer: u16,
    pub block: Window,
}

// The test of RAM's length also tells the compiler how long it is, which then leaves out the bounds tests of fixed
// places. `full` is the last test, of who keeps more than RAM.
#[tactic(auto, using(crate::proofs::Performing::all_found), unfolding(words::specs::Refusal::first_of, cells::specs::Stack::stack_sound, cells::specs::Cell::sound_cell, crate::specs::Tests::cell_unsound))]
pub(crate) fn test_command(
    ram: &[u16],
    s: Settings,
    command: u16,
    full: bool,
) -> Result<Found, Refusal>
    ensures number { number_in result ≡ first_of (perform_tests ram.now s command full) }
    ensures found { IfOk result (λ f. f ≡ found_for ram.now s command) }
{
    if ram_refused(ram.len()) {
        return Err(Refusal::RamLength);
    }
    address_refusal(s, command)?;
    let pointer = stack_pointer(ram, s);
    let block = stack_window(ram, s);
    if !stack_fits(ram.len(), pointer, block) {
        return Err(Refusal::UnsoundStack);
    }
    let cell = cell_for(ram, s, command);
    let window = window_of(cell.scheme, cell.pointer);
    if !sound_within(ram.len(), block, cell, window) {
        return Err(Refusal::UnsoundCell);
    }
    if full {
        return Err(Refusal::CountFull);
    }
    let target = target_with(ram, s, command, cell, window);
    Ok(Found {
        target,
        pointer,
        block,
    })
}

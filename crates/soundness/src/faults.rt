// Faults as one number: a bit for each part of the sentence about soundness that does not hold.
ghost use Rattle.std.specs.Prelude.{◌≡◌, not, length};
ghost use Rattle.cells.specs.Cell.{double_fits};
ghost use Rattle.soundness.specs.Faults.{faults_of, cell_faults, stack_faults};

use cells::cell::{Cell, Scheme, window_of};
use cells::stack::{stack_pointer, stack_window};
use windows::window::{Window, fits_below, run_from, windows_meet};
use words::settings::Settings;

// The number with these bits, the lowest first.
fn faults_of(misplaced: bool, over: bool, odd: bool, low: bool, high: bool, stack: bool) -> u16
    ensures { result ≡ faults_of misplaced over odd low high stack }
{
    u16::from(misplaced)
        + 2 * u16::from(over)
        + 4 * u16::from(odd)
        + 8 * u16::from(low)
        + 16 * u16::from(high)
        + 32 * u16::from(stack)
}

// A double pointer that is no multiple of 32.
#[tactic(auto, unfolding(cells::specs::Cell::double_fits))]
fn double_misses(scheme: Scheme, pointer: u16) -> bool
    ensures { result ≡ not (double_fits scheme pointer) }
{
    matches!(scheme, Scheme::Double) && pointer % 32 != 0
}

// Of a cell: 1 its pointer is outside RAM, 2 its window goes over RAM's end, 4 its double pointer is no multiple of 32,
// 8 its window meets the fixed area 0100-0247, 16 that of 0300-03FF, 32 the active stack.
#[tactic(auto, unfolding(crate::specs::Faults::cell_faults))]
pub fn cell_faults(words: usize, stack: Window, c: Cell) -> u16
    ensures { result ≡ cell_faults words stack c }
{
    let w = window_of(c.scheme, c.pointer);
    faults_of(
        words <= c.pointer as usize,
        !fits_below(w, words),
        double_misses(c.scheme, c.pointer),
        windows_meet(w, run_from(0x100, 0x148)),
        windows_meet(w, run_from(0x300, 0x100)),
        windows_meet(w, stack),
    )
}

// Of the stack: 1 its pointer is no multiple of 4, 2 it is over 0FFC (FFFC on the 64K card), 4 its block goes over RAM's
// end, 8 and 16 its block meets a fixed area.
#[tactic(auto, unfolding(crate::specs::Faults::stack_faults))]
pub fn stack_faults(ram: &[u16], s: Settings) -> u16
    ensures { result ≡ stack_faults ram.now s }
{
    let pointer = stack_pointer(ram, s);
    let w = stack_window(ram, s);
    let end = ram.len();
    faults_of(
        pointer % 4 != 0,
        end < pointer as usize + 4,
        !fits_below(w, end),
        windows_meet(w, run_from(0x100, 0x148)),
        windows_meet(w, run_from(0x300, 0x100)),
        false,
    )
}

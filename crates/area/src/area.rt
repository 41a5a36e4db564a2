// The whole-area check: refusals 1, 3, 8, and 9 with the lowest unsound cell.
ghost use Rattle.std.specs.Prelude.{◌≡◌, ◌<◌, not, length, MatchOption};
ghost use Rattle.memory.specs.Kind.{cell_number};
ghost use Rattle.cells.specs.Cell.{cell_at, sound_cell};
ghost use Rattle.area.specs.Area.{lowest, lowest_unsound, ground_refusal, check_area};

use cells::cell::{cell_at, sound_cell};
use cells::stack::{stack_sound, stack_window};
use memory::kind::{Kind, cell_number};
use memory::map::ram_refused;
use windows::window::Window;
use words::number::{BAD_SETTINGS, RAM_LENGTH, UNSOUND_CELL, UNSOUND_STACK};
use words::settings::{Settings, has_broadcast_cells, settings_refused};

// The number, and with 9 the lowest unsound cell; the cell is 0 with every other number.
#[derive(Clone, Copy, Debug, PartialEq, Eq)]
pub struct Checked {
    pub number: u16,
    pub cell: u16,
}

// The lowest unsound cell of a kind, of subaddresses 1 to 30. The search ends at the first.
// Inlined, so that the compiler decides by the kind once for them all.
#[inline(always)]
#[tactic(auto, using(crate::proofs::Lowest::search_turns))]
fn lowest_of_kind(ram: &[u16], s: Settings, stack: Window, kind: Kind) -> Option<u16>
    ensures { let first = lowest (λ sub. not (sound_cell (length ram.now) stack (cell_at ram.now s.area kind sub))) 31 in
        MatchOption result (first ≡ 0) (λ cell. (0 < first) × (cell ≡ cell_number kind first)) }
{
    for sub in 1..31 {
        let c = cell_at(ram, s.area, kind, sub);
        if !sound_cell(ram.len(), stack, c) {
            return Some(cell_number(kind, sub) as u16);
        }
    }
    None
}

// The lowest unsound cell that the check reads. Number 0 is no cell that is read.
fn lowest_unsound(ram: &[u16], s: Settings) -> Option<u16>
    ensures { MatchOption result
        (lowest_unsound ram.now s ≡ 0)
        (λ cell. (0 < cell) × (lowest_unsound ram.now s ≡ cell)) }
{
    let stack = stack_window(ram, s);
    lowest_of_kind(ram, s, stack, Kind::Receive)
        .or_else(|| lowest_of_kind(ram, s, stack, Kind::Transmit))
        .or_else(|| {
            if has_broadcast_cells(s) {
                lowest_of_kind(ram, s, stack, Kind::Broadcast)
            } else {
                None
            }
        })
}

// The first of 1, 3 and 8, or 0: what is tested before a cell is looked at. RAM's length comes first, so the compiler
// knows it wherever RAM is read, and leaves out the test of each place.
#[tactic(auto, unfolding(crate::specs::Area::ground_refusal, words::specs::Refusal::first_of))]
pub fn ground_refusal(ram: &[u16], s: Settings) -> u16
    ensures { result ≡ ground_refusal ram.now s }
{
    if ram_refused(ram.len()) {
        return RAM_LENGTH;
    }
    if settings_refused(s) {
        return BAD_SETTINGS;
    }
    if !stack_sound(ram, s) {
        return UNSOUND_STACK;
    }
    0
}

pub fn check_area(ram: &[u16], s: Settings) -> Checked
    ensures { result ≡ check_area ram.now s }
{
    let number = ground_refusal(ram, s);
    if number != 0 {
        return Checked { number, cell: 0 };
    }
    match lowest_unsound(ram, s) {
        Some(cell) => Checked {
            number: UNSOUND_CELL,
            cell,
        },
        None => Checked { number: 0, cell: 0 },
    }
}

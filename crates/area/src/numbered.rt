// A cell by its number: whether the whole-area check reads it, and its description.
ghost use Rattle.std.specs.Prelude.{◌≡◌, ◌≤◌};
ghost use Rattle.area.specs.Area.{is_read, read_end, cell_numbered};

use cells::cell::{Cell, cell_at};
use memory::kind::kind_numbered;
use words::settings::{Settings, has_broadcast_cells};

// The kind's test first: a loop over the cells of a kind then makes it once.
#[tactic(auto, unfolding(crate::specs::Area::is_read))]
pub fn is_read(s: Settings, number: u16) -> bool
    ensures { result ≡ is_read s number }
{
    let sub = number % 32;
    (number < 64 || (has_broadcast_cells(s) && number < 96)) && 1 <= sub && sub <= 30
}

// No cell from this number on is read.
pub fn read_end(s: Settings) -> u16
    ensures { (result ≡ read_end s) × (result ≤ 96) }
{
    if has_broadcast_cells(s) { 96 } else { 64 }
}

#[tactic(auto, unfolding(crate::specs::Area::cell_numbered))]
pub fn cell_numbered(ram: &[u16], s: Settings, number: u16) -> Cell
    ensures { result ≡ cell_numbered ram.now s number }
{
    cell_at(ram, s.area, kind_numbered(number), number % 32)
}

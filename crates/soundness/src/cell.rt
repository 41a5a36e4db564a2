// A cell by its number: kind, scheme, window, and why it is unsound.
ghost use Rattle.std.specs.Prelude.{◌≡◌};
ghost use Rattle.area.specs.Area.{cell_numbered};
ghost use Rattle.soundness.specs.Described.{scheme_number, described_cell, no_cell, cell_description};

use crate::faults::cell_faults;
use crate::ground::given_refusal;
use area::numbered::{cell_numbered, is_read};
use cells::cell::{Cell, Scheme, window_of};
use cells::stack::stack_window;
use memory::kind::kind_number;
use words::settings::Settings;

// The number that refuses, or 0; then what the cell is: whether the whole-area check reads it, its scheme (1 single,
// 2 double, 3 circular), its pointer, where its window starts and how many words it has, and its faults.
#[derive(Clone, Copy, Debug, Default, PartialEq, Eq)]
pub struct CellDescription {
    pub number: u16,
    pub kind: u16,
    pub subaddress: u16,
    pub read: bool,
    pub scheme: u16,
    pub pointer: u16,
    pub start: u16,
    pub size: u16,
    pub faults: u16,
}

// A function, since only the crate of `Scheme` may say how one is turned into a `u16`.
pub fn scheme_number(scheme: Scheme) -> u16
    ensures { result ≡ scheme_number scheme }
{
    match scheme {
        Scheme::Single => 1,
        Scheme::Double => 2,
        Scheme::Circular(_) => 3,
    }
}

// The number, the rest zero.
#[tactic(auto, unfolding(crate::specs::Described::no_cell))]
fn no_cell(number: u16) -> CellDescription
    ensures { result ≡ no_cell number }
{
    CellDescription {
        number,
        ..CellDescription::default()
    }
}

#[tactic(auto, unfolding(crate::specs::Described::described_cell))]
fn described_cell(ram: &[u16], s: Settings, number: u16, c: Cell) -> CellDescription
    ensures { result ≡ described_cell ram.now s number c }
{
    let w = window_of(c.scheme, c.pointer);
    CellDescription {
        number: 0,
        kind: kind_number(c.kind),
        subaddress: c.subaddress,
        read: is_read(s, number),
        scheme: scheme_number(c.scheme),
        pointer: c.pointer,
        start: w.start,
        size: w.size,
        faults: cell_faults(ram.len(), stack_window(ram, s), c),
    }
}

#[tactic(auto, unfolding(crate::specs::Described::cell_description))]
pub fn describe_cell(ram: &[u16], s: Settings, number: u16) -> CellDescription
    ensures { result ≡ cell_description ram.now s number }
{
    let refused = given_refusal(ram.len(), s);
    if refused != 0 {
        return no_cell(refused);
    }
    described_cell(ram, s, number, cell_numbered(ram, s, number))
}

// A cell's description, read from its lookup word and its control word; its window; whether it is sound.
ghost use Rattle.std.specs.Prelude.{◌≡◌, ◌<◌};
ghost use Rattle.cells.specs.Cell.{control_part, size_of, pick_scheme, lookup_at, cell_from, cell_at, window_of, double_fits, sound_within, sound_cell};

use memory::kind::{Kind, able_to_write, cell_number};
use memory::map::{control_place, lookup_table};
use memory::ram::word_at;
use windows::window::{Window, aligned_around, fits_below, meets_fixed, run_from, windows_meet};
use words::settings::Area;

#[derive(Clone, Copy, Debug, PartialEq, Eq)]
pub enum Scheme {
    Single,
    Double,
    // circular with a size
    Circular(u16),
}

#[derive(Clone, Copy, Debug, PartialEq, Eq)]
pub struct Cell {
    pub kind: Kind,
    pub subaddress: u16,
    pub pointer: u16,
    pub scheme: Scheme,
    // the circular interrupt bit
    pub circular_interrupt: bool,
    // the end-of-message interrupt bit
    pub end_interrupt: bool,
}

// What RAM says of a cell.
#[derive(Clone, Copy, Debug, PartialEq, Eq)]
pub struct Lookup {
    pub pointer: u16,
    // the five bits of its kind in the control word
    pub part: u16,
    // whether bit 15 is set and the kind heeds it; it counts with size field 0 alone
    pub double: bool,
}

// The five bits of a kind, lowest first: size, circular interrupt, end-of-message interrupt. One shift, since a division
// in each arm costs the label of an area 6 instructions a cell.
#[tactic(auto, unfolding(crate::specs::Cell::control_part))]
fn control_part(control: u16, kind: Kind) -> u16
    ensures { result ≡ control_part control kind }
{
    let shift = match kind {
        Kind::Receive => 5,
        Kind::Transmit => 10,
        Kind::Broadcast => 0,
    };
    (control >> shift) % 32
}

fn size_of(m: u16) -> u16
    requires { m < 8 }
    ensures { result ≡ size_of m }
{
    64 << m
}

#[tactic(auto, unfolding(crate::specs::Cell::pick_scheme))]
fn pick_scheme(m: u16, double: bool) -> Scheme
    requires { m < 8 }
    ensures { result ≡ pick_scheme m double }
{
    if m != 0 {
        Scheme::Circular(size_of(m))
    } else if double {
        Scheme::Double
    } else {
        Scheme::Single
    }
}

// What RAM says of the cell of this kind and subaddress.
#[tactic(auto, using(memory::proofs::Places::table_low, memory::proofs::Places::kind_low), unfolding(crate::specs::Cell::lookup_at, memory::specs::Kind::cell_number))]
fn lookup_at(ram: &[u16], area: Area, kind: Kind, subaddress: u16) -> Lookup
    ensures { result ≡ lookup_at ram.now area kind subaddress }
{
    let control = word_at(ram, control_place(area, subaddress));
    let pointer = word_at(ram, lookup_table(area) + cell_number(kind, subaddress));
    Lookup {
        pointer,
        part: control_part(control, kind),
        double: control / 32768 == 1 && able_to_write(kind),
    }
}

// The cell that this describes.
#[tactic(auto, unfolding(crate::specs::Cell::cell_from))]
fn cell_from(kind: Kind, subaddress: u16, l: Lookup) -> Cell
    ensures { result ≡ cell_from kind subaddress l }
{
    Cell {
        kind,
        subaddress,
        pointer: l.pointer,
        scheme: pick_scheme(l.part % 8, l.double),
        circular_interrupt: l.part / 8 % 2 == 1,
        end_interrupt: l.part / 16 % 2 == 1,
    }
}

// The cell of this kind and subaddress, as RAM describes it.
#[tactic(auto, unfolding(crate::specs::Cell::cell_at))]
pub fn cell_at(ram: &[u16], area: Area, kind: Kind, subaddress: u16) -> Cell
    ensures { result ≡ cell_at ram.now area kind subaddress }
{
    cell_from(kind, subaddress, lookup_at(ram, area, kind, subaddress))
}

// A way for each kind: its places and its bits are then fixed, up to 10 instructions less (`docs/BENCH.md`).
fn lookup_for(ram: &[u16], area: Area, kind: Kind, subaddress: u16) -> Lookup
    ensures { result ≡ lookup_at ram.now area kind subaddress }
{
    match kind {
        Kind::Receive => lookup_at(ram, area, Kind::Receive, subaddress),
        Kind::Transmit => lookup_at(ram, area, Kind::Transmit, subaddress),
        Kind::Broadcast => lookup_at(ram, area, Kind::Broadcast, subaddress),
    }
}

// The same cell, for whoever asks often for cells of one kind, or for one cell. A twin of `cell_at`, since a way for
// each kind is measured as faster.
#[tactic(auto, unfolding(crate::specs::Cell::cell_at))]
pub fn cell_by_kind(ram: &[u16], area: Area, kind: Kind, subaddress: u16) -> Cell
    ensures { result ≡ cell_at ram.now area kind subaddress }
{
    cell_from(kind, subaddress, lookup_for(ram, area, kind, subaddress))
}

// The window of a cell.
#[tactic(auto, unfolding(crate::specs::Cell::window_of))]
pub fn window_of(scheme: Scheme, pointer: u16) -> Window
    ensures { result ≡ window_of scheme pointer }
{
    match scheme {
        Scheme::Single => run_from(pointer, 32),
        Scheme::Double => aligned_around(pointer, 64),
        Scheme::Circular(size) => aligned_around(pointer, size),
    }
}

// A double pointer is a multiple of 32.
#[tactic(auto, unfolding(crate::specs::Cell::double_fits))]
fn double_fits(scheme: Scheme, pointer: u16) -> bool
    ensures { result ≡ double_fits scheme pointer }
{
    match scheme {
        Scheme::Double => pointer % 32 == 0,
        Scheme::Single | Scheme::Circular(_) => true,
    }
}

// Over the cell and its window, for whoever has worked it out. Early returns, since of one `&&` the compiler makes every
// test (`docs/BENCH.md`).
pub fn sound_within(words: usize, stack: Window, c: Cell, w: Window) -> bool
    ensures { result ≡ sound_within words stack c w }
{
    if !fits_below(w, words) {
        return false;
    }
    if meets_fixed(w) {
        return false;
    }
    if windows_meet(w, stack) {
        return false;
    }
    ((c.pointer as usize) < words) & double_fits(c.scheme, c.pointer)
}

#[tactic(auto, unfolding(crate::specs::Cell::sound_cell))]
pub fn sound_cell(words: usize, stack: Window, c: Cell) -> bool
    ensures { result ≡ sound_cell words stack c }
{
    sound_within(words, stack, c, window_of(c.scheme, c.pointer))
}

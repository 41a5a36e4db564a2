// The label of one cell: every other cell whose window meets its window.
ghost use Rattle.std.specs.Prelude.{◌≡◌, true, false, ◌+◌, ◌≤◌, length};
ghost use Rattle.std.proofs.lemmas.List.Edits.{sets};
ghost use Rattle.memory.specs.Map.{ram_refused};
ghost use Rattle.label.specs.Label.{takes_part, meeting_cells, sharer_numbered, cell_answer, cell_label, cell_refusal, sharers_of, counted_of};
ghost use Rattle.label.specs.Search.{shares_window, sharers_of_kind};

use area::area::ground_refusal;
use area::numbered::{cell_numbered, is_read};
use cells::cell::{cell_by_kind, sound_cell, sound_within, window_of};
use cells::stack::stack_window;
use memory::kind::{Kind, able_to_write, cell_number, kind_numbered};
use memory::map::ram_refused;
use windows::window::{Window, windows_meet};
use words::number::UNSOUND_CELL;
use words::settings::{Settings, has_broadcast_cells};

// A cell of the listing, and its mark: able to write, or only to send.
#[derive(Clone, Copy, Debug, Default, PartialEq, Eq)]
pub struct Sharer {
    pub cell: u16,
    pub writes: bool,
}

// The number, how many cells are listed, and those cells from the first place on; the rest is zero. An array with a
// count, since there is no heap.
#[derive(Clone, Copy, Debug, PartialEq, Eq)]
pub struct CellLabel {
    pub number: u16,
    pub count: u16,
    pub cells: [Sharer; 89],
}

#[tactic(auto, unfolding(crate::specs::Label::sharer_numbered))]
pub fn sharer_numbered(number: u16) -> Sharer
    ensures { result ≡ sharer_numbered number }
{
    Sharer {
        cell: number,
        writes: able_to_write(kind_numbered(number)),
    }
}

// The search for the cells whose windows meet that of one cell, `own`.
#[derive(Clone, Copy)]
struct Search<'a> {
    ram: &'a [u16],
    s: Settings,
    stack: Window,
    own: Window,
    cell: u16,
}

impl Search<'_> {
    // Whether a cell shares a word with the window of the other. Most windows lie apart, so that is asked first, and of
    // those nothing else.
    #[tactic(auto, unfolding(crate::specs::Search::shares_window, cells::specs::Cell::sound_cell))]
    fn shares_window(self, kind: Kind, subaddress: u16) -> bool
        ensures { let q = self.entry in result ≡ shares_window q.ram.now q.s q.stack q.own q.cell kind subaddress }
    {
        let c = cell_by_kind(self.ram, self.s.area, kind, subaddress);
        let w = window_of(c.scheme, c.pointer);
        windows_meet(self.own, w)
            && cell_number(kind, subaddress) != self.cell as usize
            && sound_within(self.ram.len(), self.stack, c, w)
    }

    // The numbers of those of one kind, from the first place on. Answers how many there are. RAM's length is asked again
    // so that the compiler knows it here, too.
    fn find_kind(self, kind: Kind, numbers: &mut [u16]) -> usize
        requires known { ram_refused (length self.ram.now) ≡ false }
        requires room { let q = self in length (sharers_of_kind q.ram.now q.s q.stack q.own q.cell kind) ≤ length numbers.old }
        ensures numbers { let q = self.entry in numbers.new ≡ sets numbers.old 0 (sharers_of_kind q.ram.now q.s q.stack q.own q.cell kind) }
        ensures count { let q = self.entry in result ≡ length (sharers_of_kind q.ram.now q.s q.stack q.own q.cell kind) }
        ensures most { result ≤ 30 }
    {
        if ram_refused(self.ram.len()) {
            return 0;
        }
        let mut count = 0;
        for sub in 1..31 {
            if self.shares_window(kind, sub) {
                numbers[count] = cell_number(kind, sub) as u16;
                count += 1;
            }
        }
        count
    }
}

// The numbers of the cells that are listed, from the first place on.
pub type Numbers = [u16; 89];

// The numbers of the cells that meet one that takes part. Answers how many there are.
fn find_meeting(ram: &[u16], s: Settings, cell: u16, numbers: &mut Numbers) -> usize
    requires { (ram_refused (length ram.now) ≡ false) × (takes_part ram.now s cell ≡ true) }
    ensures numbers { numbers.new ≡ sets numbers.old 0 (meeting_cells ram.now s cell) }
    ensures count { result ≡ length (meeting_cells ram.now s cell) }
{
    let c = cell_numbered(ram, s, cell);
    let search = Search {
        ram,
        s,
        stack: stack_window(ram, s),
        own: window_of(c.scheme, c.pointer),
        cell,
    };
    let receive = search.find_kind(Kind::Receive, numbers);
    let low = receive + search.find_kind(Kind::Transmit, &mut numbers[receive..]);
    if has_broadcast_cells(s) {
        return low + search.find_kind(Kind::Broadcast, &mut numbers[low..]);
    }
    low
}

// Read by the whole-area check, and sound.
#[tactic(auto, unfolding(crate::specs::Label::takes_part, label_spans::specs::Span::read_and_sound))]
fn takes_part(ram: &[u16], s: Settings, cell: u16) -> bool
    ensures { result ≡ takes_part ram.now s cell }
{
    is_read(s, cell) && sound_cell(ram.len(), stack_window(ram, s), cell_numbered(ram, s, cell))
}

// The first of 1, 3 and 8, then 9 for a cell that takes no part.
fn cell_refusal(ram: &[u16], s: Settings, cell: u16) -> u16
    ensures { result ≡ cell_refusal ram.now s cell }
{
    let number = ground_refusal(ram, s);
    if number != 0 {
        return number;
    }
    if takes_part(ram, s, cell) {
        return 0;
    }
    UNSOUND_CELL
}

// The number, and how many cells are listed.
#[derive(Clone, Copy, Debug, PartialEq, Eq)]
pub struct Counted {
    pub number: u16,
    pub count: u16,
}

// The listing by the numbers alone, for whoever has a use of their own for them.
pub fn find_sharers(ram: &[u16], s: Settings, cell: u16, numbers: &mut Numbers) -> Counted
    ensures counted { result ≡ counted_of ram.now s cell }
    ensures numbers { numbers.new ≡ sets numbers.old 0 (sharers_of ram.now s cell) }
{
    let number = cell_refusal(ram, s, cell);
    if number != 0 {
        return Counted { number, count: 0 };
    }
    let count = find_meeting(ram, s, cell, numbers) as u16;
    Counted { number, count }
}

// The answer that lists these cells.
fn answer_listing(number: u16, listed: &[u16]) -> CellLabel
    requires { length listed.now ≤ 89 }
    ensures { result ≡ cell_answer number listed.now }
{
    let mut cells = [Sharer::default(); 89];
    for (place, cell) in listed.iter().enumerate() {
        cells[place] = sharer_numbered(*cell);
    }
    CellLabel {
        number,
        count: listed.len() as u16,
        cells,
    }
}

pub fn label_cell(ram: &[u16], s: Settings, cell: u16) -> CellLabel
    ensures { result ≡ cell_label ram.now s cell }
{
    let mut numbers = [0; 89];
    let found = find_sharers(ram, s, cell, &mut numbers);
    answer_listing(found.number, &numbers[..found.count as usize])
}

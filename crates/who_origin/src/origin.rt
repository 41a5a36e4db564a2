// Where a word comes from, worked out from a message's plan.
ghost use Rattle.std.specs.Prelude.{◌≡◌, ◌↔◌, IsNone, IfSome};
ghost use Rattle.who_origin.specs.Origin.{written};
ghost use Rattle.who_origin.specs.Placed.{stack_word, steps_to, data_word, deed_wrote, who_wrote};

use memory::map::{lookup_table, stack_pointer_place};
use plan::deed::Deed;
use plan::plan::Plan;
use windows::window::Window;
use words::settings::{Area, Settings};
use writes::part::Part;

// A write: the number of its record, counted from 1, the cell of its message, and which of the message's writes it is.
#[derive(Clone, Copy, Debug, PartialEq, Eq)]
pub struct Origin {
    pub number: u64,
    pub cell: u16,
    pub part: Part,
}

// The answer.
#[derive(Clone, Copy, Debug, PartialEq, Eq)]
pub enum Who {
    Refused(u16),
    AsInImage,
    Written(Origin),
}

fn written_as(number: u64, cell: u16, part: Part) -> Who
    ensures { result ≡ written number cell part }
{
    Who::Written(Origin { number, cell, part })
}

// Which word of a descriptor at `pointer` the address is, counted from 1.
#[tactic(auto, unfolding(crate::specs::Placed::stack_word))]
fn stack_word(pointer: u16, address: u16) -> Option<u16>
    ensures none { IsNone result ↔ (stack_word pointer address ≡ 0) }
    ensures some { IfSome result (λ n. n ≡ stack_word pointer address) }
{
    let steps = address.checked_sub(pointer)?;
    if steps < 4 { Some(steps + 1) } else { None }
}

// How far an address of a window lies behind its pointer, wrapping.
#[tactic(auto, unfolding(crate::specs::Placed::steps_to))]
fn steps_to(w: Window, address: u16) -> usize
    ensures { result ≡ steps_to w address }
{
    let a = usize::from(address);
    let pointer = usize::from(w.start) + usize::from(w.offset);
    if pointer <= a {
        return a - pointer;
    }
    let wrapped = a + usize::from(w.size);
    wrapped.saturating_sub(pointer)
}

// Which of the first n words from a window's pointer on the address is, counted from 1.
#[tactic(auto, unfolding(crate::specs::Placed::data_word))]
fn data_word(w: Window, n: u16, address: u16) -> Option<u16>
    ensures none { IsNone result ↔ (data_word w n address ≡ 0) }
    ensures some { IfSome result (λ k. k ≡ data_word w n address) }
{
    let a = usize::from(address);
    let start = usize::from(w.start);
    if a < start || start + usize::from(w.size) <= a {
        return None;
    }
    let steps = steps_to(w, address);
    if steps < usize::from(n) {
        Some(steps as u16 + 1)
    } else {
        None
    }
}

// Who put the word at an address where it is, of the writes of a deed: its words and its lookup pointer.
#[tactic(auto, using(memory::proofs::Places::table_low), unfolding(crate::specs::Placed::deed_wrote))]
fn deed_wrote(area: Area, d: Deed, address: u16, number: u64, before: Who) -> Who
    ensures { result ≡ deed_wrote area d address number before }
{
    let pointer = lookup_table(area) + usize::from(d.cell);
    if d.moves && usize::from(address) == pointer {
        return written_as(number, d.cell, Part::Pointer);
    }
    match data_word(d.window, d.stored, address) {
        Some(place) => written_as(number, d.cell, Part::Data(place)),
        None => before,
    }
}

// Who put the word at an address where it is, after the message of a plan. The parts of the list of writes are asked
// from its last to its first, so that the last write that names the address is found without walking the list.
#[tactic(auto, unfolding(crate::specs::Placed::who_wrote))]
pub fn who_wrote(s: Settings, p: Plan, address: u16, number: u64, before: Who) -> Who
    ensures { result ≡ who_wrote s p address number before }
{
    let deed = p.deed;
    if usize::from(address) == stack_pointer_place(s.area) {
        return written_as(number, deed.cell, Part::StackPointer);
    }
    if let Some(place) = stack_word(p.entry.pointer, address) {
        return written_as(number, deed.cell, Part::Stack(place));
    }
    deed_wrote(s.area, deed, address, number, before)
}

// The answer for every address at once: two lent tables, as long as RAM, where a plan marks every word that it writes.
// Two slices side by side, since the C interface lends them so.
ghost use Rattle.std.specs.Prelude.{◌≡◌, get_or, set};
ghost use Rattle.memory.specs.Writes.{apply_writes};
ghost use Rattle.who_tables.specs.Mark.{mark_of};
ghost use Rattle.who_tables.specs.Table.{entry_at, data_marks, pointer_marks, stack_marks, mark_writes};

use crate::mark::{entry_of, mark_of};
use crate::tests::entry_refusal;
use memory::map::{lookup_table, stack_pointer_place};
use memory::ram::{item_or, put, word_at};
use plan::deed::Deed;
use plan::entry::Entry;
use plan::plan::Plan;
use who_origin::origin::Who;
use windows::window::place;
use words::remembered::Remembered;
use words::settings::Settings;
use writes::part::Part;

// What stands between two parts of a trace, beside RAM and the tables: what is remembered, and the number of the last
// record.
#[derive(Clone, Copy, Debug, PartialEq, Eq)]
pub struct Filling {
    pub remembered: Remembered,
    pub number: u64,
}

// A number of the table, 0 past its end. A function beside `item_or`, as `put_number` beside `put`, since
// `docs/STATEMENTS.md` names their promises and the C interface's crates call them.
pub fn number_at(numbers: &[u64], at: usize) -> u64
    ensures { result ≡ get_or numbers.now at 0 }
{
    item_or(numbers, at, 0)
}

pub fn put_number(numbers: &mut [u64], at: usize, number: u64)
    ensures { numbers.new ≡ set numbers.old at number }
{
    put(numbers, at, number);
}

// What filled tables say of an address. Tables that no replay leaves are refused: where their lengths are no RAM's, with 1
// for every address; where a number or a mark stands alone or the mark is none, with 5.
#[tactic(auto, unfolding(crate::specs::Table::entry_at))]
pub fn entry_at(numbers: &[u64], marks: &[u16], address: u16) -> Who
    ensures { result ≡ entry_at numbers.now marks.now address }
{
    let number = entry_refusal(numbers, marks, address);
    if number != 0 {
        return Who::Refused(number);
    }
    let a = usize::from(address);
    entry_of(number_at(numbers, a), word_at(marks, a))
}

// One entry, in both tables.
fn mark_at(numbers: &mut [u64], marks: &mut [u16], at: usize, number: u64, mark: u16)
    ensures numbers { numbers.new ≡ set numbers.old at number }
    ensures marks { marks.new ≡ set marks.old at mark }
{
    put_number(numbers, at, number);
    put(marks, at, mark);
}

#[tactic(auto, using(memory::proofs::Writes::apply_more, memory::proofs::Writes::length_apply), unfolding(memory::specs::Writes::apply_writes, memory::specs::Rows::row))]
fn mark_data(numbers: &mut [u64], marks: &mut [u16], d: Deed, number: u64)
    ensures numbers { numbers.new ≡ apply_writes (data_marks (λ part. number) d) numbers.old }
    ensures marks { marks.new ≡ apply_writes (data_marks (mark_of d.cell) d) marks.old }
{
    for k in 0..d.stored {
        let mark = mark_of(d.cell, Part::Data(k + 1));
        mark_at(numbers, marks, place(d.window, k), number, mark);
    }
}

#[tactic(auto, using(memory::proofs::Places::table_low), unfolding(memory::specs::Writes::apply_writes, writes::specs::Writes::pointer_list))]
fn mark_pointer(numbers: &mut [u64], marks: &mut [u16], s: Settings, d: Deed, number: u64)
    ensures numbers { numbers.new ≡ apply_writes (pointer_marks (λ part. number) s d) numbers.old }
    ensures marks { marks.new ≡ apply_writes (pointer_marks (mark_of d.cell) s d) marks.old }
{
    if d.moves {
        let at = lookup_table(s.area) + usize::from(d.cell);
        let mark = mark_of(d.cell, Part::Pointer);
        mark_at(numbers, marks, at, number, mark);
    }
}

#[tactic(auto, using(memory::proofs::Writes::apply_more, memory::proofs::Writes::length_apply), unfolding(memory::specs::Writes::apply_writes, memory::specs::Rows::row, writes::specs::Writes::entry_list))]
fn mark_stack(numbers: &mut [u64], marks: &mut [u16], e: Entry, cell: u16, number: u64)
    ensures numbers { numbers.new ≡ apply_writes (stack_marks (λ part. number) e) numbers.old }
    ensures marks { marks.new ≡ apply_writes (stack_marks (mark_of cell) e) marks.old }
{
    for k in 0..4u16 {
        let at = usize::from(e.pointer) + usize::from(k);
        let mark = mark_of(cell, Part::Stack(k + 1));
        mark_at(numbers, marks, at, number, mark);
    }
}

// Every word that a plan writes.
#[tactic(auto, using(crate::proofs::Marked::plan_marked))]
pub fn mark_plan(numbers: &mut [u64], marks: &mut [u16], s: Settings, p: Plan, number: u64)
    ensures numbers { numbers.new ≡ apply_writes (mark_writes (λ part. number) s p) numbers.old }
    ensures marks { marks.new ≡ apply_writes (mark_writes (mark_of p.deed.cell) s p) marks.old }
{
    let deed = p.deed;
    mark_data(numbers, marks, deed, number);
    mark_pointer(numbers, marks, s, deed, number);
    mark_stack(numbers, marks, p.entry, deed.cell, number);
    let mark = mark_of(deed.cell, Part::StackPointer);
    mark_at(numbers, marks, stack_pointer_place(s.area), number, mark);
}

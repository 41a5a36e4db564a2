// Carrying a plan out: the ordered list of writes, one after the other.
ghost use Rattle.std.specs.Prelude.{◌≡◌};
ghost use Rattle.writes.specs.Writes.{pointer_writes, descriptor_of, entry_writes, writes_of};
ghost use Rattle.memory.specs.Writes.{apply_writes};

use crate::store::store_words;
use memory::map::{lookup_table, stack_pointer_place};
use memory::ram::put;
use plan::deed::Deed;
use plan::entry::Entry;
use plan::plan::Plan;
use records::value::Record;
use words::settings::Settings;

#[tactic(auto, using(memory::proofs::Places::table_low), unfolding(crate::specs::Writes::pointer_list, memory::specs::Writes::apply_writes))]
fn move_pointer(ram: &mut [u16], s: Settings, d: Deed)
    ensures { ram.new ≡ apply_writes (pointer_writes s d) ram.old }
{
    if d.moves {
        put(ram, lookup_table(s.area) + usize::from(d.cell), d.after);
    }
}

#[tactic(auto, unfolding(crate::specs::Writes::entry_list, crate::specs::Writes::descriptor_of, memory::specs::Rows::row, memory::specs::Writes::apply_writes))]
fn put_entry(ram: &mut [u16], d: Deed, e: Entry, v: Record)
    ensures { ram.new ≡ apply_writes (entry_writes e (descriptor_of d v)) ram.old }
{
    let at = usize::from(e.pointer);
    put(ram, at, d.block_status);
    put(ram, at + 1, v.tag);
    put(ram, at + 2, d.third);
    put(ram, at + 3, v.command);
}

// The parts of the plan are bound first: taken from it at each call, they cost some twenty instructions a message.
#[tactic(auto, using(crate::proofs::Carried::plan_carried))]
pub fn carry_out(ram: &mut [u16], s: Settings, p: Plan, v: Record)
    ensures { ram.new ≡ apply_writes (writes_of s p v) ram.old }
{
    let deed = p.deed;
    let entry = p.entry;
    let window = deed.window;
    let words = v.words;
    let area = s.area;
    store_words(ram, window, words, deed.stored);
    move_pointer(ram, s, deed);
    put_entry(ram, deed, entry, v);
    put(ram, stack_pointer_place(area), entry.after);
}

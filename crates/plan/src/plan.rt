// The plan of an accepted message: the deed in the cell, the entry on the stack, the interrupt word, and what is
// remembered.
ghost use Rattle.std.specs.Prelude.{◌≡◌};
ghost use Rattle.plan.specs.Deed.{deed_of};
ghost use Rattle.plan.specs.Entry.{entry_in};
ghost use Rattle.plan.specs.Plan.{interrupt_word, plan_with, plan_from};

use crate::deed::{Deed, deed_of};
use crate::entry::{Entry, entry_in};
use lookup::target::Target;
use records::value::Record;
use windows::window::Window;
use words::bits::word_of;
use words::remembered::{Remembered, remembering};
use words::settings::Settings;

#[derive(Clone, Copy, Debug, PartialEq, Eq)]
pub struct Plan {
    pub deed: Deed,
    pub entry: Entry,
    pub interrupt: u16,
    // what is remembered after the message
    pub remembered: Remembered,
}

// The signals one by one: the compiler would pack a struct of four bytes that is copied.
#[tactic(auto, unfolding(crate::specs::Plan::interrupt_word))]
fn interrupt_word(illegal: bool, rollover: bool, fault: bool, end: bool, wrapped: bool) -> u16
    ensures { result ≡ interrupt_word (record { illegal = illegal; rollover = rollover; fault = fault; end = end }) wrapped }
{
    word_of([
        false, illegal, false, false, false, rollover, false, false, false, wrapped, false, fault,
        false, end, true, true,
    ])
}

#[tactic(auto, unfolding(crate::specs::Plan::plan_with))]
fn plan_with(deed: Deed, entry: Entry, remembered: Remembered) -> Plan
    ensures { result ≡ plan_with deed entry remembered }
{
    let interrupt = interrupt_word(
        deed.signals.illegal,
        deed.signals.rollover,
        deed.signals.fault,
        deed.signals.end,
        entry.wrapped,
    );
    Plan {
        deed,
        entry,
        interrupt,
        remembered,
    }
}

// Of a message that the tests let through: they have worked out target, stack pointer and block.
pub fn plan_for(
    s: Settings,
    target: Target,
    pointer: u16,
    block: Window,
    before: Remembered,
    v: Record,
) -> Plan
    ensures { result ≡ plan_from before v (deed_of s target v) (entry_in pointer block) }
{
    let deed = deed_of(s, target, v);
    let entry = entry_in(pointer, block);
    let remembered = remembering(before, v.command, deed.status);
    plan_with(deed, entry, remembered)
}

// A run of an instruction list, and one that goes on from what a run left.
ghost use Rattle.std.specs.Prelude.{◌≡◌};
ghost use Rattle.control.specs.Machine.{refusal_in};
ghost use Rattle.control.specs.Start.{started_at, gone_on};
ghost use Rattle.c_words.specs.Over.{over};
ghost use Rattle.c_control.specs.Numbers.{machine_from, machine_left, ran_numbers};

use crate::numbers::{machine_from, tell};
use control::start::{go_on, start_at};

// A run from a start address.
#[unsafe(no_mangle)]
pub extern "C" fn solkverva_control(
    ram: &[u16],
    start: u16,
    flags: u16,
    budget: u64,
    trace: &[u8],
    machine: &mut [u64],
    ran: &mut [u64],
) -> u16
    ensures number { result ≡ refusal_in (started_at ram.now trace.now start flags budget).end }
    ensures machine { machine.new ≡ machine_left machine.old (started_at ram.now trace.now start flags budget) }
    ensures ran { ran.new ≡ over ran.old (ran_numbers (started_at ram.now trace.now start flags budget)) }
{
    tell(machine, ran, start_at(ram, trace, start, flags, budget))
}

// A run that goes on from the machine that is lent.
#[unsafe(no_mangle)]
pub extern "C" fn solkverva_control_on(
    ram: &[u16],
    budget: u64,
    trace: &[u8],
    machine: &mut [u64],
    ran: &mut [u64],
) -> u16
    ensures number { result ≡ refusal_in (gone_on ram.now trace.now (machine_from machine.old) budget).end }
    ensures machine { machine.new ≡ machine_left machine.old (gone_on ram.now trace.now (machine_from machine.old) budget) }
    ensures ran { ran.new ≡ over ran.old (ran_numbers (gone_on ram.now trace.now (machine_from machine.old) budget)) }
{
    let m = machine_from(machine);
    tell(machine, ran, go_on(ram, trace, m, budget))
}

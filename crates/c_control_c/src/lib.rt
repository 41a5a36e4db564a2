// The functions of `c_control` for callers in C and Rust: each export calls the library's function of its name and
// says what that says. The C header is include/solkverva.h.

#![tactic(auto)]

ghost use Rattle.std.specs.Prelude.{◌≡◌};
ghost use Rattle.control.specs.Machine.{refusal_in};
ghost use Rattle.control.specs.Start.{started_at, gone_on};
ghost use Rattle.c_words.specs.Over.{over};
ghost use Rattle.c_control.specs.Numbers.{machine_from, machine_left, ran_numbers};

// A run from a start address.
#[unsafe(no_mangle)]
pub extern "C" fn solkverva_control(
    ram: &[u16],
    start: u16,
    flags: u16,
    budget: u64,
    trace: &[u8],
    machine: &mut [u64],
    ran: &mut [u64],
) -> u16
    ensures number { result ≡ refusal_in (started_at ram.now trace.now start flags budget).end }
    ensures machine { machine.new ≡ machine_left machine.old (started_at ram.now trace.now start flags budget) }
    ensures ran { ran.new ≡ over ran.old (ran_numbers (started_at ram.now trace.now start flags budget)) }
{
    c_control::runs::solkverva_control(ram, start, flags, budget, trace, machine, ran)
}

// A run that goes on from the machine that is lent.
#[unsafe(no_mangle)]
pub extern "C" fn solkverva_control_on(
    ram: &[u16],
    budget: u64,
    trace: &[u8],
    machine: &mut [u64],
    ran: &mut [u64],
) -> u16
    ensures number { result ≡ refusal_in (gone_on ram.now trace.now (machine_from machine.old) budget).end }
    ensures machine { machine.new ≡ machine_left machine.old (gone_on ram.now trace.now (machine_from machine.old) budget) }
    ensures ran { ran.new ≡ over ran.old (ran_numbers (gone_on ram.now trace.now (machine_from machine.old) budget)) }
{
    c_control::runs::solkverva_control_on(ram, budget, trace, machine, ran)
}

// The controller's machine from plain numbers, and a run as plain numbers, put from the first to the last.
ghost use Rattle.std.specs.Prelude.{◌≡◌};
ghost use Rattle.control.specs.Machine.{refusal_in};
ghost use Rattle.c_words.specs.Over.{over};
ghost use Rattle.c_control.specs.Numbers.{last_number, last_from, machine_numbers, machine_from, machine_left, ran_numbers};

use control::machine::{Machine, end_kind, refusal_in};
use control::run::Ran;
use control_words::condition::Outcome;
use who_tables::table::{number_at, put_number};

#[tactic(auto, unfolding(crate::specs::Numbers::last_number))]
fn last_number(o: Outcome) -> u64
    ensures { result ≡ last_number o }
{
    u64::from(o.no_status) + 2 * u64::from(o.other_fault) + 4 * u64::from(o.good_transfer)
}

#[tactic(auto, unfolding(crate::specs::Numbers::last_from))]
fn last_from(n: u64) -> Outcome
    ensures { result ≡ last_from n }
{
    Outcome {
        no_status: n % 2 == 1,
        other_fault: n / 2 % 2 == 1,
        good_transfer: n / 4 % 2 == 1,
    }
}

#[tactic(auto, unfolding(crate::specs::Numbers::machine_from))]
pub(crate) fn machine_from(xs: &[u64]) -> Machine
    ensures { result ≡ machine_from xs.now }
{
    Machine {
        pointer: number_at(xs, 0) as usize,
        flags: (number_at(xs, 1) % 256) as u16,
        last: last_from(number_at(xs, 2)),
        depth: number_at(xs, 3).min(4) as usize,
        calls: [4, 5, 6, 7].map(|at| number_at(xs, at) as usize),
        place: number_at(xs, 8) as usize,
    }
}

// One by one: an array that is put over what is lent is a call of memcpy, which a caller may not have.
#[tactic(auto, unfolding(crate::specs::Numbers::machine_numbers))]
fn put_machine(xs: &mut [u64], m: Machine)
    ensures { xs.new ≡ over xs.old (machine_numbers m) }
{
    let calls = m.calls;
    put_number(xs, 0, m.pointer as u64);
    put_number(xs, 1, u64::from(m.flags));
    put_number(xs, 2, last_number(m.last));
    put_number(xs, 3, m.depth as u64);
    put_number(xs, 4, calls[0] as u64);
    put_number(xs, 5, calls[1] as u64);
    put_number(xs, 6, calls[2] as u64);
    put_number(xs, 7, calls[3] as u64);
    put_number(xs, 8, m.place as u64);
}

#[tactic(auto, unfolding(crate::specs::Numbers::ran_numbers))]
fn put_ran(xs: &mut [u64], r: Ran)
    ensures { xs.new ≡ over xs.old (ran_numbers r) }
{
    put_number(xs, 0, u64::from(end_kind(r.end)));
    put_number(xs, 1, r.steps);
}

// A run told in what is lent; the number that refuses is the result, and then the machine keeps its contents.
#[tactic(auto, unfolding(crate::specs::Numbers::machine_left))]
pub(crate) fn tell(machine: &mut [u64], ran: &mut [u64], r: Ran) -> u16
    ensures number { result ≡ refusal_in r.end }
    ensures machine { machine.new ≡ machine_left machine.old r }
    ensures ran { ran.new ≡ over ran.old (ran_numbers r) }
{
    put_ran(ran, r);
    let number = refusal_in(r.end);
    if number == 0 {
        put_machine(machine, r.machine);
    }
    number
}

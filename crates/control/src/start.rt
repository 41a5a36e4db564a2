// The entry points: a run from a start address, and one that goes on from what a run left.
ghost use Rattle.std.specs.Prelude.{◌≡◌};
ghost use Rattle.control.specs.Start.{not_run, started_at, gone_on};

use crate::machine::{End, Machine, machine_at};
use crate::run::{Ran, run};
use crate::step::has_pair;
use control_words::number::NO_ROOM_TO_START;
use memory::map::ram_refused;
use words::number::RAM_LENGTH;

#[tactic(auto, unfolding(crate::specs::Start::not_run))]
fn not_run(number: u16) -> Ran
    ensures { result ≡ not_run number }
{
    Ran {
        end: End::Refused(number),
        steps: 0,
        machine: machine_at(0, 0),
    }
}

// A run from a start address, with the starting flags in the lowest eight bits.
#[tactic(auto, unfolding(crate::specs::Start::started_at, crate::specs::Start::start_refusal, words::specs::Refusal::first_of))]
pub fn start_at(ram: &[u16], trace: &[u8], start: u16, flags: u16, budget: u64) -> Ran
    ensures { result ≡ started_at ram.now trace.now start flags budget }
{
    let start = usize::from(start);
    if ram_refused(ram.len()) {
        return not_run(RAM_LENGTH);
    }
    if !has_pair(ram, start) {
        return not_run(NO_ROOM_TO_START);
    }
    run(ram, trace, machine_at(start, flags % 256), budget)
}

// A run that goes on from the machine that one left.
#[tactic(auto, unfolding(crate::specs::Start::gone_on, crate::specs::Start::go_on_refusal, words::specs::Refusal::first_of))]
pub fn go_on(ram: &[u16], trace: &[u8], m: Machine, budget: u64) -> Ran
    ensures { result ≡ gone_on ram.now trace.now m budget }
{
    if ram_refused(ram.len()) {
        return not_run(RAM_LENGTH);
    }
    run(ram, trace, m, budget)
}

// One step: the fetch, and then what the instruction does.
ghost use Rattle.std.specs.Prelude.{◌≡◌};
ghost use Rattle.control.specs.Step.{has_pair, step_of};

use crate::fetched::Fetched;
use crate::machine::{End, Machine, Stand};
use memory::ram::word_at;

// Whether two words stand at a place, which may lie beyond the end.
pub(crate) fn has_pair(ram: &[u16], at: usize) -> bool
    ensures { result ≡ has_pair ram.now at }
{
    2 <= ram.len().saturating_sub(at)
}

#[tactic(auto, unfolding(crate::specs::Step::step_of))]
pub fn step(ram: &[u16], trace: &[u8], m: Machine) -> Stand
    ensures { result ≡ step_of ram.now trace.now m }
{
    let at = m.pointer;
    if !has_pair(ram, at) {
        return m.ends(End::Bad);
    }
    let fetched = Fetched {
        machine: m,
        word: word_at(ram, at),
        parameter: word_at(ram, at + 1),
    };
    fetched.carry_out(trace)
}

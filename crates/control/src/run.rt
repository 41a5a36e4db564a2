// A run under a budget.
ghost use Rattle.std.specs.Prelude.{◌≡◌, ◌<◌};
ghost use Rattle.control.specs.Run.{begun, stepped, run_for};

use crate::machine::{End, Machine, Stand, is_carried_out, is_going};
use crate::step::step;

// How a run ended, the instructions carried out, and the machine that it left.
#[derive(Clone, Copy, Debug, PartialEq, Eq)]
pub struct Ran {
    pub end: End,
    pub steps: u64,
    pub machine: Machine,
}

#[tactic(auto, unfolding(crate::specs::Run::begun))]
fn begin(m: Machine) -> Ran
    ensures { result ≡ begun m }
{
    Ran {
        end: End::Budget,
        steps: 0,
        machine: m,
    }
}

#[tactic(auto, unfolding(crate::specs::Run::stepped))]
fn count_step(r: Ran, s: Stand) -> Ran
    requires { r.steps < 18446744073709551615 }
    ensures { result ≡ stepped r s }
{
    Ran {
        end: s.end,
        steps: r.steps + u64::from(is_carried_out(s.end)),
        machine: s.machine,
    }
}

// A run of at most `budget` steps.
#[tactic(auto, using(crate::proofs::Runs::reached_next), unfolding(crate::specs::Run::run_from))]
pub fn run(ram: &[u16], trace: &[u8], m: Machine, budget: u64) -> Ran
    ensures { result ≡ run_for ram.now trace.now m budget }
{
    let mut r = begin(m);
    for _ in 0..budget {
        if !is_going(r.end) {
            break;
        }
        r = count_step(r, step(ram, trace, r.machine));
    }
    r
}

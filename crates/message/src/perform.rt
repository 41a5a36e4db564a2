// A record in order, performed: tested by its command, and then carried out by its plan. Whoever needs the plan asks
// here; the compiler has one copy of all of it.
ghost use Rattle.std.specs.Prelude.{◌≡◌, false};
ghost use Rattle.words.specs.Refusal.{first_of};
ghost use Rattle.memory.specs.State.{state_of};
ghost use Rattle.memory.specs.Writes.{apply_writes};
ghost use Rattle.plan.specs.Plan.{plan_of};
ghost use Rattle.writes.specs.Writes.{writes_of};
ghost use Rattle.writes.specs.Reply.{reply_writes};
ghost use Rattle.message.specs.Message.{state_for};
ghost use Rattle.message.specs.Performed.{perform_tests, plan_found, performed_with, performed_as};

use crate::tested::{Found, test_command};
use plan::plan::{Plan, plan_for};
use records::value::Record;
use words::refusal::Refusal;
use words::remembered::Remembered;
use words::settings::Settings;
use writes::carry::carry_out;
use writes::reply::send;

// Refused with a number, or done by a plan.
#[derive(Clone, Copy, Debug, PartialEq, Eq)]
pub enum Performed {
    Refused(u16),
    Done(Plan),
}

// As it is told outside.
pub(crate) fn performed_as(performed: Result<Plan, Refusal>) -> Performed
    ensures { result ≡ performed_as performed }
{
    match performed {
        Ok(plan) => Performed::Done(plan),
        Err(refusal) => Performed::Refused(refusal.number()),
    }
}

// What the tests let through, carried out.
fn carry_through(
    ram: &mut [u16],
    reply: &mut [u16],
    s: Settings,
    before: Remembered,
    v: Record,
    f: Found,
) -> Plan
    ensures plan { result ≡ plan_found s before v f }
    ensures ram { ram.new ≡ apply_writes (writes_of s (plan_found s before v f) v) ram.old }
    ensures reply { reply.new ≡ apply_writes (reply_writes ram.old (plan_found s before v f).deed) reply.old }
{
    let plan = plan_for(s, f.target, f.pointer, f.block, before, v);
    send(ram, reply, plan.deed);
    carry_out(ram, s, plan, v);
    plan
}

#[tactic(auto, using(crate::proofs::Performing::refused_some), unfolding(crate::specs::Performed::performed_with, crate::specs::Message::state_for, crate::specs::Message::carried_out, plan::specs::Plan::plan_of, plan::specs::Entry::entry_of))]
pub(crate) fn perform(
    ram: &mut [u16],
    reply: &mut [u16],
    s: Settings,
    before: Remembered,
    v: Record,
) -> Result<Plan, Refusal>
    ensures performed { performed_as result ≡ performed_with (first_of (perform_tests ram.old s v.command false)) (plan_of s ram.old before v) }
    ensures ram { ram.new ≡ (state_for (first_of (perform_tests ram.old s v.command false)) s (plan_of s ram.old before v) v (state_of ram.old reply.old before)).ram }
    ensures reply { reply.new ≡ (state_for (first_of (perform_tests ram.old s v.command false)) s (plan_of s ram.old before v) v (state_of ram.old reply.old before)).reply }
{
    let found = test_command(ram, s, v.command, false)?;
    Ok(carry_through(ram, reply, s, before, v, found))
}

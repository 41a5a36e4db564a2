// One message: the entry points that answer it.
ghost use Rattle.std.specs.Prelude.{◌≡◌};
ghost use Rattle.memory.specs.State.{state_of};
ghost use Rattle.message.specs.Heard.{heard_value, heard_bytes};
ghost use Rattle.message.specs.Message.{answer_of, step};
ghost use Rattle.message.specs.Performed.{answer_in, remembered_in, performed_as};

use crate::answer::{Outcome, accepted_with, refused_with};
use crate::heard::{Hear, RecordBytes, perform_heard};
use plan::plan::Plan;
use records::value::Record;
use words::refusal::Refusal;
use words::remembered::Remembered;
use words::settings::Settings;

// What was performed, told; of a refusal, nothing is remembered that was not before.
#[tactic(auto, unfolding(crate::specs::Performed::answer_in, crate::specs::Performed::remembered_in))]
fn tell(performed: Result<Plan, Refusal>, before: Remembered) -> Outcome
    ensures { result ≡ record { answer = answer_in (performed_as performed); remembered = remembered_in before (performed_as performed) } }
{
    match performed {
        Ok(plan) => Outcome {
            answer: accepted_with(plan),
            remembered: plan.remembered,
        },
        Err(refusal) => Outcome {
            answer: refused_with(refusal.number()),
            remembered: before,
        },
    }
}

// One message, in whatever form it was heard.
#[tactic(auto, using(crate::proofs::Performing::answer_told, crate::proofs::Performing::remembered_told))]
pub(crate) fn message_heard<H: Hear>(
    ram: &mut [u16],
    reply: &mut [u16],
    s: Settings,
    before: Remembered,
    message: H,
) -> Outcome
    ensures answer { result.answer ≡ answer_of s (H.heard message) (state_of ram.old reply.old before) }
    ensures state { state_of ram.new reply.new result.remembered ≡ step s (H.heard message) (state_of ram.old reply.old before) }
{
    tell(perform_heard(ram, reply, s, before, message), before)
}

// One message from a record value.
pub fn message_from_value(
    ram: &mut [u16],
    reply: &mut [u16],
    s: Settings,
    before: Remembered,
    v: Record,
) -> Outcome
    ensures answer { result.answer ≡ answer_of s (heard_value v) (state_of ram.old reply.old before) }
    ensures state { state_of ram.new reply.new result.remembered ≡ step s (heard_value v) (state_of ram.old reply.old before) }
{
    message_heard(ram, reply, s, before, v)
}

// One message from record bytes.
pub fn message_from_bytes(
    ram: &mut [u16],
    reply: &mut [u16],
    s: Settings,
    before: Remembered,
    bytes: &[u8],
) -> Outcome
    ensures answer { result.answer ≡ answer_of s (heard_bytes bytes.now) (state_of ram.old reply.old before) }
    ensures state { state_of ram.new reply.new result.remembered ≡ step s (heard_bytes bytes.now) (state_of ram.old reply.old before) }
{
    message_heard(ram, reply, s, before, RecordBytes(bytes))
}

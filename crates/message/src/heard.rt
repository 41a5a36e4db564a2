// One message as it was heard, performed: from a record value, or from record bytes.
ghost use Rattle.std.specs.Prelude.{◌≡◌, IfOk};
ghost use Rattle.memory.specs.State.{state_of};
ghost use Rattle.words.specs.Refusal.{first_of};
ghost use Rattle.words.specs.Refusals.{number_in};
ghost use Rattle.message.specs.Heard.{Heard, heard_value, heard_bytes};
ghost use Rattle.message.specs.Message.{step};
ghost use Rattle.message.specs.Performed.{performed_of, performed_as};
ghost use Rattle.message.specs.Tests.{record_tests};

use crate::perform::{Performed, perform, performed_as};
use crate::tests::early_refusal;
use layout::reader;
use plan::plan::Plan;
use records::value::{Record, keeps_layout};
use words::number::RECORD_LENGTH;
use words::refusal::Refusal;
use words::remembered::Remembered;
use words::settings::Settings;

// A form in which a message is heard.
pub(crate) trait Hear: Copy {
    ghost heard: { Self → Heard };

    // The record value, unless its own form refuses it.
    fn hear(self) -> Result<Record, Refusal>
        ensures number { number_in result ≡ first_of (record_tests (heard self)) }
        ensures value { IfOk result (λ v. v ≡ (heard self).value) };
}

impl Hear for Record {
    ghost heard = { heard_value };

    #[tactic(auto, unfolding(words::specs::Refusal::first_of))]
    fn hear(self) -> Result<Record, Refusal> {
        if keeps_layout(self) {
            Ok(self)
        } else {
            Err(Refusal::RecordLayout)
        }
    }
}

// The bytes of a record.
#[derive(Clone, Copy)]
pub(crate) struct RecordBytes<'a>(pub &'a [u8]);

impl<'a> Hear for RecordBytes<'a> {
    ghost heard = { λ bytes. heard_bytes bytes.0.now };

    #[tactic(auto, using(crate::proofs::FromBytes::record_number, crate::proofs::FromBytes::value_read), unfolding(words::specs::Refusal::first_of))]
    fn hear(self) -> Result<Record, Refusal> {
        let reading = reader::read(self.0);
        match reading.number {
            0 => Ok(reading.value),
            RECORD_LENGTH => Err(Refusal::RecordLength),
            _ => Err(Refusal::RecordLayout),
        }
    }
}

// What was heard, tested and carried out.
#[tactic(auto, using(crate::proofs::Performing::refusal_asked, crate::proofs::Performing::refused_some), unfolding(crate::specs::Performed::performed_of, crate::specs::Performed::performed_with, crate::specs::Message::step, crate::specs::Message::state_for))]
pub(crate) fn perform_heard<H: Hear>(
    ram: &mut [u16],
    reply: &mut [u16],
    s: Settings,
    before: Remembered,
    message: H,
) -> Result<Plan, Refusal>
    ensures performed { performed_as result ≡ performed_of s (H.heard message) (state_of ram.old reply.old before) }
    ensures ram { ram.new ≡ (step s (H.heard message) (state_of ram.old reply.old before)).ram }
    ensures reply { reply.new ≡ (step s (H.heard message) (state_of ram.old reply.old before)).reply }
{
    early_refusal(ram.len(), reply.len(), s)?;
    let v = message.hear()?;
    perform(ram, reply, s, before, v)
}

pub fn perform_value(
    ram: &mut [u16],
    reply: &mut [u16],
    s: Settings,
    before: Remembered,
    v: Record,
) -> Performed
    ensures performed { result ≡ performed_of s (heard_value v) (state_of ram.old reply.old before) }
    ensures ram { ram.new ≡ (step s (heard_value v) (state_of ram.old reply.old before)).ram }
    ensures reply { reply.new ≡ (step s (heard_value v) (state_of ram.old reply.old before)).reply }
{
    performed_as(perform_heard(ram, reply, s, before, v))
}

pub fn perform_bytes(
    ram: &mut [u16],
    reply: &mut [u16],
    s: Settings,
    before: Remembered,
    bytes: &[u8],
) -> Performed
    ensures performed { result ≡ performed_of s (heard_bytes bytes.now) (state_of ram.old reply.old before) }
    ensures ram { ram.new ≡ (step s (heard_bytes bytes.now) (state_of ram.old reply.old before)).ram }
    ensures reply { reply.new ≡ (step s (heard_bytes bytes.now) (state_of ram.old reply.old before)).reply }
{
    performed_as(perform_heard(ram, reply, s, before, RecordBytes(bytes)))
}

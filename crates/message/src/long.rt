// One message from a long record: what is heard of it is its old part, with the time tag's lower half.
ghost use Rattle.std.specs.Prelude.{◌≡◌};
ghost use Rattle.memory.specs.State.{state_of};
ghost use Rattle.message.specs.Heard.{heard_long};
ghost use Rattle.message.specs.Message.{answer_of, step};
ghost use Rattle.message.specs.Performed.{performed_of};

use crate::answer::Outcome;
use crate::heard::{Hear, perform_heard};
use crate::perform::{Performed, performed_as};
use crate::serve::message_heard;
use layout_long::reader::read_old;
use records::value::Record;
use words::number::RECORD_LENGTH;
use words::refusal::Refusal;
use words::remembered::Remembered;
use words::settings::Settings;

// The bytes of a long record.
#[derive(Clone, Copy)]
pub(crate) struct LongBytes<'a>(pub &'a [u8]);

impl<'a> Hear for LongBytes<'a> {
    ghost heard = { λ bytes. heard_long bytes.0.now };

    #[tactic(auto, using(crate::proofs::FromLong::long_record_number, layout_long::proofs::Cases::old_value), unfolding(words::specs::Refusal::first_of))]
    fn hear(self) -> Result<Record, Refusal> {
        let reading = read_old(self.0);
        match reading.number {
            0 => Ok(reading.value),
            RECORD_LENGTH => Err(Refusal::RecordLength),
            _ => Err(Refusal::RecordLayout),
        }
    }
}

pub fn perform_long(
    ram: &mut [u16],
    reply: &mut [u16],
    s: Settings,
    before: Remembered,
    bytes: &[u8],
) -> Performed
    ensures performed { result ≡ performed_of s (heard_long bytes.now) (state_of ram.old reply.old before) }
    ensures ram { ram.new ≡ (step s (heard_long bytes.now) (state_of ram.old reply.old before)).ram }
    ensures reply { reply.new ≡ (step s (heard_long bytes.now) (state_of ram.old reply.old before)).reply }
{
    performed_as(perform_heard(ram, reply, s, before, LongBytes(bytes)))
}

// One message from the bytes of a long record.
pub fn message_from_long(
    ram: &mut [u16],
    reply: &mut [u16],
    s: Settings,
    before: Remembered,
    bytes: &[u8],
) -> Outcome
    ensures answer { result.answer ≡ answer_of s (heard_long bytes.now) (state_of ram.old reply.old before) }
    ensures state { state_of ram.new reply.new result.remembered ≡ step s (heard_long bytes.now) (state_of ram.old reply.old before) }
{
    message_heard(ram, reply, s, before, LongBytes(bytes))
}

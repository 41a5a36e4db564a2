// The exported function for a message that was heard as a long record.
ghost use Rattle.std.specs.Prelude.{◌≡◌};
ghost use Rattle.message.specs.Heard.{heard_long};
ghost use Rattle.c_words.specs.Setup.{settings_from};
ghost use Rattle.c_words_messages.specs.Call.{lent_of, call_number, lent_after};

use c_words::setup::{remembered_from, settings_from};
use c_words_messages::answers::hand_back;
use message::long::perform_long;

// One message from the bytes of a long record. The number is the result; the answer's words, the number first, and the remembered
// state are put over what is lent.
#[tactic(auto, using(c_words_messages::proofs::Called::called_number, c_words_messages::proofs::Called::called_lent))]
#[unsafe(no_mangle)]
pub extern "C" fn solkverva_message_long(
    ram: &mut [u16],
    reply: &mut [u16],
    settings: &[u16],
    remembered: &mut [u16],
    bytes: &[u8],
    answer: &mut [u16],
) -> u16
    ensures number { result ≡ call_number (settings_from settings.now) (heard_long bytes.now) (lent_of ram.old reply.old remembered.old answer.old) }
    ensures lent { lent_of ram.new reply.new remembered.new answer.new ≡ lent_after (settings_from settings.now) (heard_long bytes.now) (lent_of ram.old reply.old remembered.old answer.old) }
{
    let s = settings_from(settings);
    let m = remembered_from(remembered);
    let performed = perform_long(ram, reply, s, m, bytes);
    hand_back(remembered, answer, performed)
}

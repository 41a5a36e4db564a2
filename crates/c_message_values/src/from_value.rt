// The exported function for a message that was heard as a value.
ghost use Rattle.std.specs.Prelude.{◌≡◌};
ghost use Rattle.message.specs.Heard.{heard_value};
ghost use Rattle.c_words.specs.Setup.{settings_from};
ghost use Rattle.c_words_messages.specs.Call.{lent_of, call_number, lent_after};
ghost use Rattle.c_words_messages.specs.Values.{value_from};

use c_words::setup::{remembered_from, settings_from};
use c_words_messages::answers::hand_back;
use c_words_messages::values::value_from;
use message::heard::perform_value;

// One message from a record value.
#[tactic(auto, using(c_words_messages::proofs::Called::called_number, c_words_messages::proofs::Called::called_lent))]
#[unsafe(no_mangle)]
pub extern "C" fn solkverva_message_value(
    ram: &mut [u16],
    reply: &mut [u16],
    settings: &[u16],
    remembered: &mut [u16],
    value: &[u16],
    answer: &mut [u16],
) -> u16
    ensures number { result ≡ call_number (settings_from settings.now) (heard_value (value_from value.now)) (lent_of ram.old reply.old remembered.old answer.old) }
    ensures lent { lent_of ram.new reply.new remembered.new answer.new ≡ lent_after (settings_from settings.now) (heard_value (value_from value.now)) (lent_of ram.old reply.old remembered.old answer.old) }
{
    let s = settings_from(settings);
    let m = remembered_from(remembered);
    let v = value_from(value);
    let performed = perform_value(ram, reply, s, m, v);
    hand_back(remembered, answer, performed)
}

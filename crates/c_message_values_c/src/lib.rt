// The function of `c_message_values` for callers in C and Rust: it calls the library's function of its name and
// says what that says. The C header is include/solkverva.h.

#![tactic(auto)]

ghost use Rattle.std.specs.Prelude.{◌≡◌};
ghost use Rattle.message.specs.Heard.{heard_value};
ghost use Rattle.c_words.specs.Setup.{settings_from};
ghost use Rattle.c_words_messages.specs.Call.{lent_of, call_number, lent_after};
ghost use Rattle.c_words_messages.specs.Values.{value_from};

// One message from a record value.
#[unsafe(no_mangle)]
pub extern "C" fn solkverva_message_value(
    ram: &mut [u16],
    reply: &mut [u16],
    settings: &[u16],
    remembered: &mut [u16],
    value: &[u16],
    answer: &mut [u16],
) -> u16
    ensures number { result ≡ call_number (settings_from settings.now) (heard_value (value_from value.now)) (lent_of ram.old reply.old remembered.old answer.old) }
    ensures lent { lent_of ram.new reply.new remembered.new answer.new ≡ lent_after (settings_from settings.now) (heard_value (value_from value.now)) (lent_of ram.old reply.old remembered.old answer.old) }
{
    c_message_values::from_value::solkverva_message_value(
        ram, reply, settings, remembered, value, answer,
    )
}

// Two messages that are neighbours, in one order: what each does, and whether they may change places.
use crate::lines::Numbers;
use crate::ram::front;
use crate::show::tell;
use exchange_asked::neighbours::may_exchange;
use memory::ram::word_at;
use message::serve::message_from_value;
use records::value::{Record, zero_value};
use std::io::Print;
use words::remembered::nothing_remembered;
use words::settings::Settings;

// A receive brings one word, which is not 0; a transmit brings none.
fn heard(command: u16, word: u16) -> Record {
    let mut words = [0u16; 32];
    words[0] = word;
    Record {
        command,
        count: u8::from(word != 0),
        words,
        ..zero_value()
    }
}

// What a receive brought, or the first word that a transmit sent. No answer depends on what is remembered.
fn one(rt: &impl Print, ram: &mut [u16], s: Settings, command: u16, word: u16) {
    let mut reply = [0u16; 33];
    let v = heard(command, word);
    message_from_value(front(ram, 4096), &mut reply, s, nothing_remembered(), v);
    if word == 0 {
        tell(rt, format_args!(" {command:04X} sends {:04X}", reply[1]));
    } else {
        tell(rt, format_args!(" {command:04X} brings {word:04X}"));
    }
}

// One after the other in a copy of RAM, what a place then holds, and whether they may change places.
pub(crate) fn order(rt: &impl Print, start: [u16; 65792], s: Settings, n: Numbers) {
    let mut ram = start;
    let may = may_exchange(&ram, s, heard(n.a, n.b), heard(n.c, n.d));
    one(rt, &mut ram, s, n.a, n.b);
    tell(rt, ",");
    one(rt, &mut ram, s, n.c, n.d);
    let end = word_at(&ram, usize::from(n.e));
    tell(rt, format_args!(": {:04X} ends as {end:04X}", n.e));
    tell(
        rt,
        if may {
            "; they may change places"
        } else {
            "; they may not change places"
        },
    );
}

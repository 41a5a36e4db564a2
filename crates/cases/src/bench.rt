// What stands between two lines of a script: settings, the remembered state, how many words of RAM and reply are lent,
// the record at hand, and the controller's machine.
use crate::lines::Numbers;
use crate::ram::fill;
use crate::verb::Verb;
use control::machine::{Machine, machine_at};
use memory::ram::put;
use message::answer::Outcome;
use records::value::{Record, zero_value};
use words::remembered::{Remembered, nothing_remembered};
use words::settings::{Area, Settings};

#[derive(Clone, Copy)]
pub(crate) struct Bench {
    pub settings: Settings,
    pub remembered: Remembered,
    pub ram: usize,
    pub room: usize,
    pub record: Record,
    pub machine: Machine,
}

// RAM of zeros and a reply of EEEE; 4,096 and 33 words of them are lent.
pub(crate) fn cleared(ram: &mut [u16; 65792], reply: &mut [u16; 64]) -> Bench {
    ram.fill(0);
    reply.fill(0xEEEE);
    Bench {
        settings: settings(5, 0, 256, 1),
        remembered: nothing_remembered(),
        ram: 4096,
        room: 33,
        record: zero_value(),
        machine: machine_at(0, 0),
    }
}

// The yes/no settings are bits of `yes`, lowest first in document 01's order; after them, broadcast off.
pub(crate) fn settings(address: u16, second: u16, size: u16, yes: u16) -> Settings {
    Settings {
        address,
        area: if second == 0 { Area::A } else { Area::B },
        stack_size: size,
        overwrite_invalid: yes & 1 != 0,
        separate_broadcast: yes & 2 != 0,
        illegal_receive_disable: yes & 4 != 0,
        busy_receive_disable: yes & 8 != 0,
        busy_always: yes & 16 != 0,
        service_request: yes & 32 != 0,
        subsystem_flag: yes & 64 != 0,
        terminal_flag: yes & 128 != 0,
        broadcast: yes & 256 == 0,
    }
}

// The low byte of a number.
pub(crate) fn low_byte(n: u16) -> u8 {
    n.to_be_bytes()[1]
}

// Command, count, flags, first word, step to the next, tag; as many words as the count says. The transmit command is
// given before.
fn record_of(n: Numbers, from: u16) -> Record {
    let mut words = [0u16; 32];
    fill(&mut words, 0, n.b, n.d, n.e);
    Record {
        command: n.a,
        transmit_command: from,
        tag: n.f,
        flags: low_byte(n.c),
        count: low_byte(n.b),
        words,
    }
}

fn with_word(v: Record, at: u16, word: u16) -> Record {
    let mut words = v.words;
    put(&mut words, usize::from(at), word);
    Record { words, ..v }
}

impl Bench {
    // The bench after a line that changes the settings, the lengths, the transmit command, a word of the record, or the
    // record.
    pub(crate) fn built(self, verb: Verb, n: Numbers) -> Bench {
        match verb {
            Verb::Set => Bench {
                settings: settings(n.a, n.b, n.c, n.d),
                ..self
            },
            Verb::Lend => Bench {
                ram: usize::from(n.c % 16) * 65536 + usize::from(n.a),
                room: usize::from(n.b),
                ..self
            },
            Verb::From => self.with_record(Record {
                transmit_command: n.a,
                ..self.record
            }),
            Verb::Word => self.with_record(with_word(self.record, n.a, n.b)),
            _ => self.with_record(record_of(n, self.record.transmit_command)),
        }
    }

    fn with_record(self, record: Record) -> Bench {
        Bench { record, ..self }
    }

    pub(crate) fn after(self, outcome: Outcome) -> Bench {
        Bench {
            remembered: outcome.remembered,
            ..self
        }
    }
}

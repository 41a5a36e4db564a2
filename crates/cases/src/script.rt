// The script, line by line.
use crate::bench::{self, Bench};
use crate::lines::{Line, Numbers};
use crate::show::{tell, tell_bytes};
use crate::verb::Verb;
use crate::{blocks, commands, controller, long, messages, origins, pairs, ram, ranges, reading};
use memory::ram::put;
use std::io::Print;

// A line that asks, whose answer stands behind it.
fn asked(rt: &impl Print, memory: &[u16], reply: &[u16], b: Bench, verb: Verb, n: Numbers) {
    match verb {
        Verb::Command => commands::command(rt, memory, b.settings, n.a),
        Verb::Read => reading::read(rt, b.record, n),
        Verb::Write => reading::write(rt, b.record),
        Verb::Long => long::read(rt, b.record, n),
        Verb::Opcode => controller::opcode(rt, n),
        Verb::Flags => controller::flags(rt, n),
        Verb::Outcome => controller::outcome(rt, b.record),
        Verb::Block => blocks::moved(rt, n.a, n.b, n.c),
        Verb::Cell => blocks::cell(rt, memory, b, n),
        Verb::Ram => ram::shown(rt, memory, n.a, n.b),
        Verb::Reply => ram::shown(rt, reply, n.a, n.b),
        _ => ranges::answers(rt, memory, b, verb, n),
    }
}

// A line that is printed, with its answer. A check has a word put first, if there is one.
fn answered(
    rt: &impl Print,
    memory: &mut [u16; 65792],
    reply: &mut [u16; 64],
    b: Bench,
    verb: Verb,
    n: Numbers,
) -> Bench {
    match verb {
        Verb::Message => return messages::message(rt, memory, reply, b, n),
        Verb::Bytes => return messages::bytes(rt, memory, reply, b, n),
        Verb::Part => return origins::part(rt, memory, b, n),
        Verb::Heard => return messages::heard(rt, memory, reply, b, n),
        Verb::Control => return controller::control(rt, memory, b, n),
        Verb::On => return controller::on(rt, memory, b, n),
        Verb::Order => pairs::order(rt, *memory, b.settings, n),
        Verb::Check => {
            if n.count == 2 {
                put(memory, usize::from(n.a), n.b);
            }
            blocks::check(rt, memory, b);
        }
        _ => asked(rt, memory, reply, b, verb, n),
    }
    tell(rt, "\n");
    b
}

// A line that builds what a case needs. Any other is printed, with its answer.
fn done(
    rt: &impl Print,
    text: &[u8],
    memory: &mut [u16; 65792],
    reply: &mut [u16; 64],
    b: Bench,
    verb: Verb,
    n: Numbers,
) -> Bench {
    match verb {
        Verb::Blank => b,
        Verb::Put => {
            put(memory, usize::from(n.a), n.b);
            b
        }
        Verb::Fill => {
            ram::fill(memory, n.a, n.b, n.c, n.d);
            b
        }
        Verb::Clear => bench::cleared(memory, reply),
        Verb::Set | Verb::Lend | Verb::From | Verb::Record | Verb::Word => b.built(verb, n),
        Verb::Again => b.after(messages::served(memory, reply, b, n.a)),
        _ => {
            tell_bytes(rt, text);
            tell(rt, ":");
            answered(rt, memory, reply, b, verb, n)
        }
    }
}

pub(crate) fn run(rt: &impl Print, text: &[u8], memory: &mut [u16; 65792], reply: &mut [u16; 64]) {
    let mut b = bench::cleared(memory, reply);
    let mut number: u16 = 0;
    for text in text.split(|byte| *byte == b'\n') {
        number = number % 65535 + 1;
        match Line::read(text) {
            Line::Heading => {
                tell_bytes(rt, text);
                tell(rt, "\n");
            }
            Line::Case(verb, n) => b = done(rt, text, memory, reply, b, verb, n),
            Line::NotUnderstood => {
                tell_bytes(rt, text);
                tell(rt, format_args!(": line {number} is not understood\n"));
            }
        }
    }
}

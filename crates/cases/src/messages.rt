// Messages, given to the terminal as values or as bytes.
use crate::bench::Bench;
use crate::lines::Numbers;
use crate::long::long_of;
use crate::ram::{front, front_of};
use crate::reading::bytes_of;
use crate::show::tell;
use crate::verb::Verb;
use message::answer::Outcome;
use message::long::message_from_long;
use message::serve::{message_from_bytes, message_from_value};
use std::io::Print;

// The columns of a trace line, then the cell's number and what is remembered.
fn outcome(rt: &impl Print, o: Outcome) {
    let a = o.answer;
    let r = o.remembered;
    tell(rt, format_args!(" {} {:04X}", a.number, a.block_status));
    tell(rt, format_args!(" {:04X} {:04X} ", a.before, a.after));
    if a.answered {
        tell(rt, format_args!("{:04X}", a.status));
    } else {
        tell(rt, "none");
    }
    tell(
        rt,
        format_args!(" {} {:04X} cell {}", a.sent, a.interrupt, a.cell),
    );
    tell(
        rt,
        format_args!(" remembers {:04X} {:04X}\n", r.command, r.status),
    );
}

// The record at hand, as a value, `n` times and at least once: what comes of the last.
pub(crate) fn served(ram: &mut [u16], reply: &mut [u16], b: Bench, n: u16) -> Outcome {
    let mut o = served_once(ram, reply, b);
    for _ in 1..n {
        o = served_once(ram, reply, b.after(o));
    }
    o
}

fn served_once(ram: &mut [u16], reply: &mut [u16], b: Bench) -> Outcome {
    let ram = front(ram, b.ram);
    let reply = front(reply, b.room);
    message_from_value(ram, reply, b.settings, b.remembered, b.record)
}

// A message made from the line's numbers.
pub(crate) fn message(
    rt: &impl Print,
    ram: &mut [u16],
    reply: &mut [u16],
    b: Bench,
    n: Numbers,
) -> Bench {
    let next = b.built(Verb::Record, n);
    let o = served_once(ram, reply, next);
    outcome(rt, o);
    next.after(o)
}

// The record at hand, as bytes: as many as the first number says.
pub(crate) fn bytes(
    rt: &impl Print,
    ram: &mut [u16],
    reply: &mut [u16],
    b: Bench,
    n: Numbers,
) -> Bench {
    let record = bytes_of(b.record, n);
    let bytes = front_of(&record, usize::from(n.a));
    let ram = front(ram, b.ram);
    let reply = front(reply, b.room);
    let o = message_from_bytes(ram, reply, b.settings, b.remembered, bytes);
    outcome(rt, o);
    b.after(o)
}

// The record at hand as a long one: as many bytes as the first number says.
pub(crate) fn heard(
    rt: &impl Print,
    ram: &mut [u16],
    reply: &mut [u16],
    b: Bench,
    n: Numbers,
) -> Bench {
    let record = long_of(b.record, n);
    let bytes = front_of(&record, usize::from(n.a));
    let ram = front(ram, b.ram);
    let reply = front(reply, b.room);
    let o = message_from_long(ram, reply, b.settings, b.remembered, bytes);
    outcome(rt, o);
    b.after(o)
}

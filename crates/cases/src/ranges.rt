// One question for each number of a range, each answered by a digit.
use crate::bench::Bench;
use crate::lines::Numbers;
use crate::ram::front_of;
use crate::reading::bytes_of;
use crate::show::tell;
use crate::verb::Verb;
use memory::map::is_illegal_at;
use records::value::Record;
use std::io::Print;
use words::settings::is_broadcast;

// The number with which the reader refuses the record's first `i` bytes, or its eighty with byte `i` set if the line
// has three numbers.
fn refusal(v: Record, n: Numbers, i: u16) -> u16 {
    let bytes = bytes_of(v, Numbers { b: i, ..n });
    let length = if n.count == 3 { 80 } else { usize::from(i) };
    layout::reader::read(front_of(&bytes, length)).number
}

// That, or 1 where the third number is an illegal command with `i` added to its subaddress.
fn answer(ram: &[u16], b: Bench, verb: Verb, n: Numbers, i: u16) -> u16 {
    if verb == Verb::Legal {
        let w = n.c.wrapping_add(i % 32 * 32);
        return u16::from(is_illegal_at(ram, !is_broadcast(b.settings, w), w));
    }
    refusal(b.record, n, i)
}

// From the line's first number on, as many as its second says.
pub(crate) fn answers(rt: &impl Print, ram: &[u16], b: Bench, verb: Verb, n: Numbers) {
    tell(rt, " ");
    for k in 0..n.b {
        tell(rt, answer(ram, b, verb, n, n.a.wrapping_add(k)));
    }
}

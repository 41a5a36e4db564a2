// The bus controller: op code words, flags, what the record at hand tells the conditions, and runs over a trace of it.
use crate::bench::{Bench, low_byte};
use crate::lines::Numbers;
use crate::ram::front_of;
use crate::show::{Answer, tell};
use control::machine::{end_kind, refusal_in};
use control::run::Ran;
use control::start::{go_on, start_at};
use control_words::condition::{Outcome, due};
use control_words::flags::flags_after;
use control_words::opcode::{op_code_number, operation_of};
use control_words::outcome::outcome_shown;
use records::value::Record;
use std::io::Print;

// The operation of the first number, and whether it is due with the flags and the last message that follow.
pub(crate) fn opcode(rt: &impl Print, n: Numbers) {
    let operation = operation_of(n.a);
    let last = Outcome {
        no_status: n.c & 1 != 0,
        other_fault: n.c & 2 != 0,
        good_transfer: n.c & 4 != 0,
    };
    let is_due = due(operation, n.a, n.b, last);
    tell(rt, format_args!(" op code {}", op_code_number(operation)));
    tell(rt, format_args!(" due {}", Answer(is_due)));
}

// The flags of the first number after the second as an FLG instruction's parameter.
pub(crate) fn flags(rt: &impl Print, n: Numbers) {
    tell(rt, format_args!(" {:04X}", flags_after(n.a, n.b)));
}

// What the last message tells, its three yes or no added up.
fn last_number(o: Outcome) -> u16 {
    u16::from(o.no_status) + 2 * u16::from(o.other_fault) + 4 * u16::from(o.good_transfer)
}

pub(crate) fn outcome(rt: &impl Print, v: Record) {
    tell(rt, format_args!(" {}", last_number(outcome_shown(v))));
}

// The record's bytes eight times, and with a byte set at a place, if there is one.
fn trace_of(v: Record, changed: Option<(u16, u16)>) -> [u8; 640] {
    let bytes = layout::writer::write(v).bytes;
    let mut trace = [0u8; 640];
    for record in trace.chunks_exact_mut(80) {
        record.copy_from_slice(&bytes);
    }
    if let Some((place, byte)) = changed {
        trace[usize::from(place % 640)] = low_byte(byte);
    }
    trace
}

// How a run ended, its steps, and the machine that it left.
fn told(rt: &impl Print, b: Bench, r: Ran) -> Bench {
    let m = r.machine;
    tell(
        rt,
        format_args!(" {} end {}", refusal_in(r.end), end_kind(r.end)),
    );
    tell(rt, format_args!(" steps {}", r.steps % 65536));
    tell(rt, format_args!(" at {:04X}", m.pointer % 65536));
    tell(rt, format_args!(" flags {:04X}", m.flags));
    tell(rt, format_args!(" last {}", last_number(m.last)));
    tell(rt, format_args!(" depth {}", m.depth % 65536));
    tell(rt, format_args!(" place {}\n", m.place % 65536));
    Bench { machine: m, ..b }
}

// A run from a start address: start, flags, budget, and how many bytes the trace has.
pub(crate) fn control(rt: &impl Print, ram: &[u16], b: Bench, n: Numbers) -> Bench {
    let trace = trace_of(b.record, (n.count == 6).then_some((n.e, n.f)));
    let r = start_at(
        front_of(ram, b.ram),
        front_of(&trace, usize::from(n.d)),
        n.a,
        n.b,
        u64::from(n.c),
    );
    told(rt, b, r)
}

// One that goes on from what the last run left: budget, and how many bytes the trace has.
pub(crate) fn on(rt: &impl Print, ram: &[u16], b: Bench, n: Numbers) -> Bench {
    let trace = trace_of(b.record, (n.count == 4).then_some((n.c, n.d)));
    let r = go_on(
        front_of(ram, b.ram),
        front_of(&trace, usize::from(n.b)),
        b.machine,
        u64::from(n.a),
    );
    told(rt, b, r)
}

// The record at hand: read, written, and both round trips.
use crate::bench::low_byte;
use crate::lines::Numbers;
use crate::ram::{front_of, shown};
use crate::show::{Answer, tell};
use layout::reader::{Reading, join};
use layout::writer::Written;
use records::transfer::{bad_second, is_transfer, no_status, wrong_gap};
use records::value::{Record, bus_b, invalid_word, wrong_sync};
use std::io::Print;

// The bytes that the writer gives, with zeros behind them, and with the byte at the second number set to the third, if
// the line has three.
pub(crate) fn bytes_of(v: Record, n: Numbers) -> [u8; 160] {
    let mut bytes = [0u8; 160];
    bytes[..80].copy_from_slice(&layout::writer::write(v).bytes);
    if n.count == 3 {
        bytes[usize::from(n.b % 160)] = low_byte(n.c);
    }
    bytes
}

// Of a transfer: its transmit command, and its flags one by one.
fn transfer(rt: &impl Print, v: Record) {
    if is_transfer(v) {
        tell(
            rt,
            format_args!(" transfer from {:04X}", v.transmit_command),
        );
        tell(rt, format_args!(" no status {}", Answer(no_status(v))));
        tell(rt, format_args!(" gap {}", Answer(wrong_gap(v))));
        tell(rt, format_args!(" second {}", Answer(bad_second(v))));
    }
}

// Number, command, tag, flags and count, the flags one by one, what a transfer has, and the words.
fn reading(rt: &impl Print, r: Reading) {
    let v = r.value;
    tell(
        rt,
        format_args!(" {} {:04X} {:04X}", r.number, v.command, v.tag),
    );
    tell(rt, format_args!(" {} {}", v.flags, v.count));
    tell(rt, format_args!(" bus B {}", Answer(bus_b(v))));
    tell(rt, format_args!(" sync {}", Answer(wrong_sync(v))));
    tell(rt, format_args!(" invalid {}", Answer(invalid_word(v))));
    transfer(rt, v);
    tell(rt, ":");
    shown(rt, &v.words, 0, 32);
}

// Number and all eighty bytes.
fn written(rt: &impl Print, w: Written) {
    tell(rt, format_args!(" {} ", w.number));
    for byte in w.bytes {
        tell(rt, format_args!("{byte:02X}"));
    }
}

// Written; and that, read back.
pub(crate) fn write(rt: &impl Print, v: Record) {
    written(rt, layout::writer::write(v));
    tell(rt, "\n    read back:");
    reading(rt, layout::round_trip::read_written(v));
}

// Its bytes, read; and that, written back.
pub(crate) fn read(rt: &impl Print, v: Record, n: Numbers) {
    let s = bytes_of(v, n);
    let bytes = front_of(&s, usize::from(n.a));
    reading(rt, layout::reader::read(bytes));
    tell(rt, "\n    written back:");
    written(rt, layout::round_trip::write_read(bytes));
}

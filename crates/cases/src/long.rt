// The record at hand as a long one: read, made short, and its first 80 bytes made long.
use crate::bench::low_byte;
use crate::lines::Numbers;
use crate::ram::front_of;
use crate::show::tell;
use layout_long::conversion::{longer, shorter};
use layout_long::reader::read_long;
use layout_long::value::LongRecord;
use layout_long::writer::write_long;
use records::value::Record;
use std::io::Print;

// Its bytes, with the second and third number as upper half and member, zeros behind them, and the byte at the fourth
// number set to the fifth, if the line has five.
pub(crate) fn long_of(v: Record, n: Numbers) -> [u8; 160] {
    let long = write_long(LongRecord {
        old: v,
        upper: n.b,
        member: n.c,
    });
    let mut bytes = [0u8; 160];
    bytes[..96].copy_from_slice(&long.bytes);
    if n.count == 5 {
        bytes[usize::from(n.d % 160)] = low_byte(n.e);
    }
    bytes
}

// The reader's number, upper half and member, and the numbers of going back and of going on.
pub(crate) fn read(rt: &impl Print, v: Record, n: Numbers) {
    let s = long_of(v, n);
    let bytes = front_of(&s, usize::from(n.a));
    let r = read_long(bytes);
    let l = r.value;
    tell(
        rt,
        format_args!(" {} {:04X} member {}", r.number, l.upper, l.member),
    );
    tell(rt, format_args!(" back {}", shorter(bytes).number));
    tell(
        rt,
        format_args!(" on {}", longer(front_of(bytes, 80)).number),
    );
}

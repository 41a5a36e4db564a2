// The record reader: 80 bytes to a value, or refusal 4 or 5.
ghost use Rattle.std.specs.Prelude.{◌≡◌, ◌+◌, ◌-◌, ◌*◌, ◌<◌, ◌≤◌, length};
ghost use Rattle.layout.specs.Layout.{are_zero, words_in, value_in, breaks_layout, read_record, not_read};
ghost use Rattle.records.specs.Value.{lasts_zero};

use records::value::{Record, keeps_header, zero_value};
use words::number::{RECORD_LAYOUT, RECORD_LENGTH};

// What reading gives: the number, and the value where it is 0.
#[derive(Clone, Copy, Debug, PartialEq, Eq)]
pub struct Reading {
    pub number: u16,
    pub value: Record,
}

// Two bytes as a word, high byte first.
pub fn join(high: u8, low: u8) -> u16
    ensures { result ≡ high * 256 + low }
{
    u16::from_be_bytes([high, low])
}

#[tactic(auto, using(words::proofs::Fill::fill_more), unfolding(crate::specs::Layout::words_in, words::specs::Fill::fill_from))]
fn words_in(s: &[u8; 80]) -> [u16; 32]
    ensures { result ≡ words_in s.now }
{
    let mut words = [0; 32];
    for i in 0..32 {
        words[i] = join(s[16 + 2 * i], s[16 + 2 * i + 1]);
    }
    words
}

#[tactic(auto, unfolding(crate::specs::Layout::value_in))]
fn value_in(s: &[u8; 80]) -> Record
    ensures { result ≡ value_in s.now }
{
    let words = words_in(s);
    Record {
        command: join(s[0], s[1]),
        transmit_command: join(s[2], s[3]),
        tag: join(s[4], s[5]),
        flags: s[6],
        count: s[7],
        words,
    }
}

// Whether the `n` bytes from `from` on are zero; those past the end are. With `&` there is no branch: the compiler tests as
// many bytes at a time as a register holds.
pub fn are_zero(s: &[u8], from: usize, n: usize) -> bool
    ensures { result ≡ are_zero s.now from n }
{
    let start = from.min(s.len());
    let end = start + n.min(s.len() - start);
    s[start..end]
        .iter()
        .fold(true, |zero, byte| zero & (*byte == 0))
}

// Whether all bytes from `from` on are zero, in two pieces of fixed length. The last eight may overlap those before them,
// so that one shape fits every `from`.
#[tactic(auto, using(crate::proofs::Parts::rest_zero))]
fn all_are_zero(s: &[u8; 80], from: usize) -> bool
    requires { (from ≤ 24) × (16 ≤ from) }
    ensures { result ≡ are_zero s.now from (80 - from) }
{
    are_zero(s, from, 56) & are_zero(s, 72, 8)
}

static LIMITS: [[u8; 64]; 2] = [[255; 64], [0; 64]];

// Whether the words after the count are zero. Each byte is held to a limit, 255 before the count's end and 0 after it:
// the compiler then compares sixteen bytes at a time.
fn lasts_keep_limits(s: &[u8; 80], count: u8) -> bool
    requires { count < 32 }
    ensures { result ≡ lasts_zero (words_in s.now) count 32 }
{
    let from = 64 - 2 * usize::from(count);
    s[16..]
        .iter()
        .zip(&LIMITS.as_flattened()[from..])
        .fold(true, |kept, (byte, limit)| kept & (*byte <= *limit))
}

// The same: with at most four words in one piece, and with 32 nothing is left to test.
#[tactic(auto, using(crate::proofs::Parts::lasts_zero_bytes, records::proofs::Turns::lasts_zero_none))]
fn lasts_are_zero(s: &[u8; 80], count: u8) -> bool
    ensures { result ≡ lasts_zero (words_in s.now) count 32 }
{
    match count {
        0..=4 => all_are_zero(s, 16 + 2 * usize::from(count)),
        5..=31 => lasts_keep_limits(s, count),
        _ => true,
    }
}

fn breaks_layout(s: &[u8; 80], v: Record) -> bool
    requires { v ≡ value_in s.now }
    ensures { result ≡ breaks_layout s.now }
{
    !(are_zero(s, 8, 8) && keeps_header(v) && lasts_are_zero(s, v.count))
}

#[tactic(auto, unfolding(crate::specs::Layout::not_read))]
fn not_read(number: u16) -> Reading
    ensures { result ≡ not_read number }
{
    Reading {
        number,
        value: zero_value(),
    }
}

#[tactic(auto, using(crate::proofs::Cases::read_length, crate::proofs::Cases::read_layout, crate::proofs::Cases::read_good))]
pub fn read(s: &[u8]) -> Reading
    ensures { result ≡ read_record s.now }
{
    let Ok(bytes) = <&[u8; 80]>::try_from(s) else {
        return not_read(RECORD_LENGTH);
    };
    let value = value_in(bytes);
    if breaks_layout(bytes, value) {
        return not_read(RECORD_LAYOUT);
    }
    Reading { number: 0, value }
}

// The reader of long records: 96 bytes to a value, or refusal 4 or 5.
ghost use Rattle.std.specs.Prelude.{◌≡◌};
ghost use Rattle.layout.specs.Layout.{not_read};
ghost use Rattle.layout_long.specs.Long.{read_old, not_read_long, read_long};

use crate::value::{LongRecord, zero_long};
use layout::reader::{Reading, are_zero, join, read};
use records::value::zero_value;
use words::number::{RECORD_LAYOUT, RECORD_LENGTH};

// What reading gives: the number, and the value where it is 0.
#[derive(Clone, Copy, Debug, PartialEq, Eq)]
pub struct LongReading {
    pub number: u16,
    pub value: LongRecord,
}

#[tactic(auto, unfolding(layout::specs::Layout::not_read))]
fn no_old(number: u16) -> Reading
    ensures { result ≡ not_read number }
{
    Reading {
        number,
        value: zero_value(),
    }
}

// All tests of the long layout but that of its length, and what is read of the old part.
#[tactic(auto, using(crate::proofs::Cases::hears_end, crate::proofs::Cases::hears_old))]
fn old_in(s: &[u8; 96]) -> Reading
    ensures { result ≡ read_old s.now }
{
    if !are_zero(s, 84, 12) {
        return no_old(RECORD_LAYOUT);
    }
    read(&s[..80])
}

// What a terminal hears of a long record: its old part.
#[tactic(auto, using(crate::proofs::Cases::hears_length))]
pub fn read_old(s: &[u8]) -> Reading
    ensures { result ≡ read_old s.now }
{
    let Ok(bytes) = <&[u8; 96]>::try_from(s) else {
        return no_old(RECORD_LENGTH);
    };
    old_in(bytes)
}

#[tactic(auto, unfolding(crate::specs::Long::not_read_long))]
fn not_read_long(number: u16) -> LongReading
    ensures { result ≡ not_read_long number }
{
    LongReading {
        number,
        value: zero_long(),
    }
}

#[tactic(auto, using(crate::proofs::Cases::long_length_lem, crate::proofs::Cases::long_unheard, crate::proofs::Cases::long_heard))]
pub fn read_long(s: &[u8]) -> LongReading
    ensures { result ≡ read_long s.now }
{
    let Ok(bytes) = <&[u8; 96]>::try_from(s) else {
        return not_read_long(RECORD_LENGTH);
    };
    let reading = old_in(bytes);
    if reading.number != 0 {
        return not_read_long(reading.number);
    }
    LongReading {
        number: 0,
        value: LongRecord {
            old: reading.value,
            upper: join(bytes[80], bytes[81]),
            member: join(bytes[82], bytes[83]),
        },
    }
}

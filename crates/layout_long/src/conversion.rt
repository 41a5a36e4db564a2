// Old records to new and back: a record of 80 bytes with sixteen zeros behind it, and the first 80 bytes of 96.
ghost use Rattle.std.specs.Prelude.{◌≡◌};
ghost use Rattle.layout_long.specs.Conversion.{longer_of, loses_number, not_short, shorter_of};

use crate::reader::read_long;
use crate::value::LongRecord;
use crate::writer::{LongWritten, not_long, with_zeros};
use layout::reader::read;
use layout::writer::Written;
use words::number::GOING_BACK_LOSES;

// Old to new.
#[tactic(auto, using(crate::proofs::Conversions::not_longer, crate::proofs::Conversions::read_long_enough, crate::proofs::Conversions::longer_first))]
pub fn longer(s: &[u8]) -> LongWritten
    ensures { result ≡ longer_of s.now }
{
    let reading = read(s);
    if reading.number != 0 {
        return not_long(reading.number);
    }
    let bytes = with_zeros(s.first_chunk().unwrap());
    LongWritten { number: 0, bytes }
}

#[tactic(auto, unfolding(crate::specs::Conversion::loses_number))]
fn loses_number(v: LongRecord) -> bool
    ensures { result ≡ loses_number v }
{
    v.upper != 0 || v.member != 0
}

#[tactic(auto, unfolding(crate::specs::Conversion::not_short))]
fn not_short(number: u16) -> Written
    ensures { result ≡ not_short number }
{
    Written {
        number,
        bytes: [0; 80],
    }
}

// New to old.
#[tactic(auto, using(crate::proofs::Conversions::not_shorter, crate::proofs::Conversions::long_enough, crate::proofs::Conversions::shorter_unkept, crate::proofs::Conversions::shorter_kept))]
pub fn shorter(s: &[u8]) -> Written
    ensures { result ≡ shorter_of s.now }
{
    let reading = read_long(s);
    if reading.number != 0 {
        return not_short(reading.number);
    }
    if loses_number(reading.value) {
        return not_short(GOING_BACK_LOSES);
    }
    let bytes = *s.first_chunk().unwrap();
    Written { number: 0, bytes }
}

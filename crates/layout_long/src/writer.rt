// The writer of long records: a value to 96 bytes, or refusal 5.
ghost use Rattle.std.specs.Prelude.{◌≡◌, true};
ghost use Rattle.layout_long.specs.WritingLong.{with_zeros, new_fields, not_long, write_long};
ghost use Rattle.layout.specs.Fields.{put_fields};
ghost use Rattle.layout.specs.Layout.{are_zero};

use crate::value::LongRecord;
use layout::writer::{put_word, write};
use words::number::RECORD_LAYOUT;

// What writing gives: the number, and the bytes where it is 0.
#[derive(Clone, Copy, Debug, PartialEq, Eq)]
pub struct LongWritten {
    pub number: u16,
    pub bytes: [u8; 96],
}

// An old record, and sixteen zeros.
pub(crate) fn with_zeros(old: &[u8; 80]) -> [u8; 96]
    ensures { result ≡ with_zeros old.now }
{
    let mut bytes = [0; 96];
    bytes[..80].copy_from_slice(old);
    bytes
}

// The fields behind the old part; the last is zero as it stands.
#[tactic(auto, using(crate::proofs::Pieces::new_put))]
fn put_new(start: [u8; 96], v: LongRecord) -> [u8; 96]
    requires { are_zero start 84 12 ≡ true }
    ensures { result ≡ put_fields (new_fields v) start }
{
    let mut bytes = start;
    put_word(&mut bytes, 80, v.upper);
    put_word(&mut bytes, 82, v.member);
    bytes
}

#[tactic(auto, unfolding(crate::specs::WritingLong::not_long))]
pub(crate) fn not_long(number: u16) -> LongWritten
    ensures { result ≡ not_long number }
{
    LongWritten {
        number,
        bytes: [0; 96],
    }
}

#[tactic(auto, using(crate::proofs::Cases::long_unwritten, crate::proofs::Cases::long_put, crate::proofs::Pieces::end_of_zeros))]
pub fn write_long(v: LongRecord) -> LongWritten
    ensures { result ≡ write_long v }
{
    let old = v.old;
    let written = write(old);
    if written.number != 0 {
        return not_long(RECORD_LAYOUT);
    }
    let first = written.bytes;
    let bytes = put_new(with_zeros(&first), v);
    LongWritten { number: 0, bytes }
}

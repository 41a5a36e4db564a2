// The long record as a value.
ghost use Rattle.std.specs.Prelude.{◌≡◌};
ghost use Rattle.layout_long.specs.Long.{zero_long};

use records::value::{Record, zero_value};

#[derive(Clone, Copy, Debug, PartialEq, Eq)]
pub struct LongRecord {
    // the record of 80 bytes, with the time tag's lower half
    pub old: Record,
    // the time tag's upper half
    pub upper: u16,
    // the member's number
    pub member: u16,
}

#[tactic(auto, unfolding(crate::specs::Long::zero_long))]
pub fn zero_long() -> LongRecord
    ensures { result ≡ zero_long }
{
    LongRecord {
        old: zero_value(),
        upper: 0,
        member: 0,
    }
}

// Long records from plain words and into them.
ghost use Rattle.std.specs.Prelude.{◌≡◌};
ghost use Rattle.c_words.specs.Over.{over};
ghost use Rattle.c_words_long.specs.LongValues.{long_from, long_words};

use c_words_messages::values::{put_value, value_from};
use layout_long::value::LongRecord;
use memory::ram::{put, word_at};

#[tactic(auto, unfolding(crate::specs::LongValues::long_from))]
pub fn long_from(xs: &[u16]) -> LongRecord
    ensures { result ≡ long_from xs.now }
{
    let member = word_at(xs, 38);
    let upper = word_at(xs, 37);
    let old = value_from(xs);
    LongRecord { old, upper, member }
}

#[tactic(auto, using(crate::proofs::LongPut::long_put))]
pub fn put_long(xs: &mut [u16], v: LongRecord)
    ensures { xs.new ≡ over xs.old (long_words v) }
{
    put_value(xs, v.old);
    put(xs, 37, v.upper);
    put(xs, 38, v.member);
}

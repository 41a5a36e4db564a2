// The record value, its flags, and the rules that a value keeps.
ghost use Rattle.std.specs.Prelude.{◌≡◌};
ghost use Rattle.records.specs.Value.{zero_value, on_bus_b, has_wrong_sync, has_invalid_word, lasts_zero, keeps_header, keeps_layout};

use crate::transfer::breaks_transfer;

// The words of a record value.
pub type Words = [u16; 32];

// A message record as a value. It can hold what breaks the layout, since the writer refuses such a value: `count` is a
// number of the record, up to 33 and over, and no length of `words`.
#[derive(Clone, Copy, Debug, Default, PartialEq, Eq)]
pub struct Record {
    pub command: u16,
    // of the terminal that transmits in an RT-to-RT transfer; else 0
    pub transmit_command: u16,
    pub tag: u16,
    pub flags: u8,
    pub count: u8,
    pub words: [u16; 32],
}

pub fn zero_value() -> Record
    ensures { result ≡ zero_value }
{
    Record::default()
}

pub fn bus_b(v: Record) -> bool
    ensures { result ≡ on_bus_b v }
{
    v.flags % 2 == 1
}

pub fn wrong_sync(v: Record) -> bool
    ensures { result ≡ has_wrong_sync v }
{
    v.flags / 2 % 2 == 1
}

pub fn invalid_word(v: Record) -> bool
    ensures { result ≡ has_invalid_word v }
{
    v.flags / 4 % 2 == 1
}

// Whether the words from `count` on are zero. With `&` there is no branch: the compiler tests several words at a time.
fn lasts_zero(words: &Words, count: u8) -> bool
    ensures { result ≡ lasts_zero words.now count 32 }
{
    let mut zero = true;
    for i in usize::from(count)..32 {
        zero = zero & (words[i] == 0);
    }
    zero
}

// The rules of a record but for its words, which the reader tests as bytes.
pub fn keeps_header(v: Record) -> bool
    ensures { result ≡ keeps_header v }
{
    v.flags <= 127 && v.count <= 33 && !breaks_transfer(v)
}

#[tactic(auto, unfolding(crate::specs::Value::keeps_layout))]
pub fn keeps_layout(v: Record) -> bool
    ensures { result ≡ keeps_layout v }
{
    keeps_header(v) && lasts_zero(&v.words, v.count)
}

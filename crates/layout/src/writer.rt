// The record writer: a value to 80 bytes, or refusal 5.
ghost use Rattle.std.specs.Prelude.{◌≡◌, ◌+◌, ◌<◌, length};
ghost use Rattle.layout.specs.Fields.{put_number};
ghost use Rattle.layout.specs.Writing.{header_of, put_words, write_record};

use records::value::{Record, keeps_layout};
use words::number::RECORD_LAYOUT;

// What writing gives: the number, and the bytes where it is 0.
#[derive(Clone, Copy, Debug, PartialEq, Eq)]
pub struct Written {
    pub number: u16,
    pub bytes: [u8; 80],
}

// Puts a word in the two bytes from `at` on, high byte first; a byte past the end is not put.
#[tactic(auto, unfolding(crate::specs::Fields::put_number))]
pub fn put_word(bytes: &mut [u8], at: usize, word: u16)
    ensures { bytes.new ≡ put_number bytes.old at 2 word }
{
    let pair = word.to_be_bytes();
    if at < bytes.len() {
        if at + 1 < bytes.len() {
            bytes[at..at + 2].copy_from_slice(&pair);
        } else {
            bytes[at] = pair[0];
        }
    }
}

#[tactic(auto, unfolding(crate::specs::Writing::header_of, crate::specs::Writing::header_fields, crate::specs::Fields::put_fields, crate::specs::Fields::put_number))]
fn header_of(v: Record) -> [u8; 80]
    ensures { result ≡ header_of v }
{
    let mut bytes = [0; 80];
    put_word(&mut bytes, 0, v.command);
    put_word(&mut bytes, 2, v.transmit_command);
    put_word(&mut bytes, 4, v.tag);
    bytes[6] = v.flags;
    bytes[7] = v.count;
    bytes
}

#[tactic(auto, using(crate::proofs::Turns::put_words_none, crate::proofs::Turns::put_words_more))]
fn put_words(header: [u8; 80], words: [u16; 32]) -> [u8; 80]
    ensures { result ≡ put_words header words 32 }
{
    let mut bytes = header;
    for (i, word) in words.iter().enumerate() {
        put_word(&mut bytes, 16 + 2 * i, *word);
    }
    bytes
}

#[tactic(auto, using(crate::proofs::Cases::write_layout, crate::proofs::Cases::write_good, crate::proofs::Cases::bytes_joined))]
pub fn write(v: Record) -> Written
    ensures { result ≡ write_record v }
{
    if !keeps_layout(v) {
        return Written {
            number: RECORD_LAYOUT,
            bytes: [0; 80],
        };
    }
    let words = v.words;
    let bytes = put_words(header_of(v), words);
    Written { number: 0, bytes }
}

// Record values from plain words and into them.
ghost use Rattle.std.specs.Prelude.{◌≡◌, ◌+◌};
ghost use Rattle.words.specs.Fill.{fill};
ghost use Rattle.records.specs.Value.{zero_words};
ghost use Rattle.c_words.specs.Over.{over};
ghost use Rattle.c_words.specs.Fields.{word_in, byte_in};
ghost use Rattle.c_words_messages.specs.Values.{value_from, value_words};

use c_words::over::{put_four, put_words};
use memory::ram::{put, word_at};
use records::value::Record;

fn byte_at(xs: &[u16], i: usize) -> u8
    ensures { result ≡ byte_in xs.now i }
{
    word_at(xs, i).min(255) as u8
}

// The words from place 4 on, those that are there. Where all are, the compiler sees a copy of fixed length.
fn words_from(xs: &[u16]) -> [u16; 32]
    ensures { result ≡ fill (λ k. word_in xs.now (4 + k)) zero_words 32 }
{
    let mut words = [0; 32];
    if 36 <= xs.len() {
        words.copy_from_slice(&xs[4..36]);
        return words;
    }
    for i in 4..xs.len() {
        words[i - 4] = xs[i];
    }
    words
}

#[tactic(auto, unfolding(crate::specs::Values::value_from))]
pub fn value_from(xs: &[u16]) -> Record
    ensures { result ≡ value_from xs.now }
{
    let words = words_from(xs);
    let count = byte_at(xs, 3);
    let flags = byte_at(xs, 2);
    let tag = word_at(xs, 1);
    let transmit_command = word_at(xs, 36);
    Record {
        command: word_at(xs, 0),
        transmit_command,
        tag,
        flags,
        count,
        words,
    }
}

#[tactic(auto, using(c_words::proofs::Order::value_put), unfolding(crate::specs::Values::value_words))]
pub fn put_value(xs: &mut [u16], v: Record)
    ensures { xs.new ≡ over xs.old (value_words v) }
{
    put_four(
        xs,
        0,
        v.command,
        v.tag,
        u16::from(v.flags),
        u16::from(v.count),
    );
    put_words(xs, v.words);
    put(xs, 36, v.transmit_command);
}

// The lines after the last whole record.
ghost use Rattle.text.specs.Text.{Adds, PutFirst};
ghost use Rattle.trace_ends.specs.LastLines.{tail_line, end_line, last_lines};

use text::text::Text;

// Nothing where there is no tail.
#[tactic(auto, unfolding(crate::specs::LastLines::tail_line))]
pub fn put_tail(text: &mut Text, tail: u64)
    ensures { Adds text.old (tail_line tail) text.new }
{
    // The place is read for its range: where nothing is put, it has to be one of 64 bits.
    let _place = text.at;
    if tail != 0 {
        text.put_named(b"tail", tail);
    }
}

#[tactic(auto, unfolding(crate::specs::LastLines::end_line))]
pub fn put_end(text: &mut Text, number: u64)
    ensures { Adds text.old (end_line number) text.new }
{
    text.put_named(b"end", number);
}

// The lines after the last whole record: the tail, if there is one, and the end line. Answers their length.
pub fn put_last_lines(out: &mut [u8], tail: usize, number: u64) -> usize
    ensures { PutFirst out.old (last_lines tail number) out.new result }
{
    let mut text = Text { out, at: 0 };
    put_tail(&mut text, tail as u64);
    put_end(&mut text, number);
    text.at
}

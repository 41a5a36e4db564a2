// The label's words and lines.
ghost use Rattle.text.specs.Text.{Adds};
ghost use Rattle.wording.specs.Wording.{kind_name, cell_text, mark_text, marked_text, meet_line, reason_text, refused_line};

use label::one::Sharer;
use memory::kind::{Kind, kind_numbered};
use text::text::Text;
use words::number::{ADDRESS_BEYOND, BAD_SETTINGS, RAM_LENGTH, UNSOUND_STACK};

pub fn put_kind(text: &mut Text, kind: Kind)
    ensures { Adds text.old (kind_name kind) text.new }
{
    match kind {
        Kind::Receive => text.put_bytes(b"receive"),
        Kind::Transmit => text.put_bytes(b"transmit"),
        Kind::Broadcast => text.put_bytes(b"broadcast"),
    }
}

// A cell by its kind and its subaddress.
pub fn put_cell(text: &mut Text, number: u16)
    ensures { Adds text.old (cell_text number) text.new }
{
    put_kind(text, kind_numbered(number));
    text.put_number(u64::from(number % 32));
}

fn put_mark(text: &mut Text, writes: bool)
    ensures { Adds text.old (mark_text writes) text.new }
{
    if writes {
        text.put_bytes(b" (writes)");
    } else {
        text.put_bytes(b" (sends)");
    }
}

fn put_marked(text: &mut Text, sharer: Sharer)
    ensures { Adds text.old (marked_text sharer) text.new }
{
    put_cell(text, sharer.cell);
    put_mark(text, sharer.writes);
}

// The line of two cells whose windows meet.
pub fn put_meeting(text: &mut Text, cell: Sharer, other: Sharer)
    ensures { Adds text.old (meet_line cell other) text.new }
{
    put_marked(text, cell);
    text.put_bytes(b" meets ");
    put_marked(text, other);
    text.put_newline();
}

#[tactic(auto, unfolding(crate::specs::Wording::reason_text))]
fn put_reason(text: &mut Text, number: u16)
    ensures { Adds text.old (reason_text number) text.new }
{
    match number {
        RAM_LENGTH => text.put_bytes(b"wrong RAM length"),
        BAD_SETTINGS => text.put_bytes(b"bad settings"),
        UNSOUND_STACK => text.put_bytes(b"stack unsound"),
        ADDRESS_BEYOND => text.put_bytes(b"address beyond the RAM"),
        _ => text.put_bytes(b"no such sound cell"),
    }
}

// The line of a refusal: of a label, and of the question who put a word where it is.
pub fn put_refused(text: &mut Text, number: u16)
    ensures { Adds text.old (refused_line number) text.new }
{
    text.put_bytes(b"refused");
    text.put_number(u64::from(number));
    text.put_bytes(b": ");
    put_reason(text, number);
    text.put_newline();
}

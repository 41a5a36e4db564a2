// The answer about an address as a line.
ghost use Rattle.text.specs.Text.{Adds};
ghost use Rattle.who_text.specs.Line.{cell_name, stack_name, data_text, pointer_text, stack_text, part_text, origin_line, answer_line, who_line};

use memory::kind::kind_numbered;
use text::text::Text;
use who_origin::origin::{Origin, Who};
use wording::wording::{put_kind, put_refused};
use writes::part::Part;

// A cell by its kind and its subaddress.
fn put_cell_name(text: &mut Text, cell: u16)
    ensures { Adds text.old (cell_name cell) text.new }
{
    put_kind(text, kind_numbered(cell));
    text.put_bytes(b" subaddress");
    text.put_number(u64::from(cell % 32));
}

// A word of a descriptor, by its place.
#[tactic(auto, unfolding(crate::specs::Line::stack_name))]
fn put_stack_name(text: &mut Text, place: u16)
    ensures { Adds text.old (stack_name place) text.new }
{
    match place {
        1 => text.put_bytes(b"block status"),
        2 => text.put_bytes(b"time tag"),
        3 => text.put_bytes(b"pointer"),
        _ => text.put_bytes(b"command"),
    }
}

// A data word.
fn put_data(text: &mut Text, cell: u16, place: u16)
    ensures { Adds text.old (data_text cell place) text.new }
{
    put_cell_name(text, cell);
    text.put_bytes(b", word");
    text.put_number(u64::from(place));
}

// A lookup pointer.
fn put_pointer(text: &mut Text, cell: u16)
    ensures { Adds text.old (pointer_text cell) text.new }
{
    text.put_bytes(b"pointer of ");
    put_cell_name(text, cell);
}

// A stack word.
fn put_stack(text: &mut Text, place: u16)
    ensures { Adds text.old (stack_text place) text.new }
{
    text.put_bytes(b"stack, ");
    put_stack_name(text, place);
}

fn put_part(text: &mut Text, cell: u16, part: Part)
    ensures { Adds text.old (part_text cell part) text.new }
{
    match part {
        Part::Data(place) => put_data(text, cell, place),
        Part::Pointer => put_pointer(text, cell),
        Part::Stack(place) => put_stack(text, place),
        Part::StackPointer => text.put_bytes(b"stack pointer"),
    }
}

// The record that wrote the word.
fn put_origin(text: &mut Text, o: Origin)
    ensures { Adds text.old (origin_line o) text.new }
{
    text.put_bytes(b"record");
    text.put_number(o.number);
    text.put_bytes(b", ");
    put_part(text, o.cell, o.part);
    text.put_newline();
}

fn put_answer(text: &mut Text, who: Who)
    ensures { Adds text.old (answer_line who) text.new }
{
    match who {
        Who::Refused(number) => put_refused(text, number),
        Who::AsInImage => text.put_bytes(b"as in the image\n"),
        Who::Written(origin) => put_origin(text, origin),
    }
}

// The address, and who put its word there.
pub fn put_who_line(text: &mut Text, address: u16, who: Who)
    ensures { Adds text.old (who_line address who) text.new }
{
    text.put_hex_word(address);
    text.put_bytes(b" ");
    put_answer(text, who);
}

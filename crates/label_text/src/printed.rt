// The label's whole text into a lent buffer, as far as it reaches. A text counts on past the buffer's end, so that a caller
// sees what did not fit.
ghost use mathlib.Core.List.{flat_map};
ghost use Rattle.std.specs.Prelude.{take};
ghost use Rattle.text.specs.Text.{Adds, PutFirst};
ghost use Rattle.label.specs.Label.{sharer_numbered};
ghost use Rattle.wording.specs.Wording.{also_text, unsound_line, meet_line};
ghost use Rattle.label_text.specs.Printed.{word_line, AreaFits, CellFits, lines_of, cell_lines_of, area_text, one_cell_text};

use label::one::{CellLabel, label_cell, sharer_numbered};
use label::whole::{AreaLabel, label_area};
use text::text::Text;
use wording::wording::{put_cell, put_meeting, put_refused};
use words::settings::Settings;

// The lines of pairs, each in one word.
fn put_pairs(text: &mut Text, pairs: &[u16])
    ensures { Adds text.old (flat_map word_line pairs.now) text.new }
{
    // The place is read for its range: where nothing is put, it has to be one of 64 bits.
    let _place = text.at;
    for pair in pairs {
        put_meeting(
            text,
            sharer_numbered(pair / 256),
            sharer_numbered(pair % 256),
        );
    }
}

// The other cells of the line of unsound cells.
fn put_others(text: &mut Text, others: &[u16])
    ensures { Adds text.old (flat_map also_text others.now) text.new }
{
    // The place is read for its range: where nothing is put, it has to be one of 64 bits.
    let _place = text.at;
    for cell in others {
        text.put_bytes(b", ");
        put_cell(text, *cell);
    }
}

// The line of unsound cells; nothing where there is none.
fn put_unsound(text: &mut Text, cells: &[u16])
    ensures { Adds text.old (unsound_line cells.now) text.new }
{
    // The place is read for its range: where nothing is put, it has to be one of 64 bits.
    let _place = text.at;
    if let [first, others @ ..] = cells {
        text.put_bytes(b"unsound: ");
        put_cell(text, *first);
        put_others(text, others);
        text.put_newline();
    }
}

// The lines of a label that is not refused.
fn put_area_lines(text: &mut Text, label: &AreaLabel, pairs: &[u16])
    requires { AreaFits label.now pairs.now }
    ensures { Adds text.old (lines_of label.now pairs.now) text.new }
{
    put_pairs(text, &pairs[..usize::from(label.pairs)]);
    let named = usize::from(label.unsound_count);
    put_unsound(text, &label.unsound[..named]);
    text.put_named(b"pairs", u64::from(label.pairs));
}

// The label of the whole area.
pub fn put_area_text(out: &mut [u8], ram: &[u16], s: Settings) -> usize
    ensures { PutFirst out.old (area_text ram.now s) out.new result }
{
    let mut pairs = [0u16; 4005];
    let label = label_area(ram, s, &mut pairs);
    let mut text = Text { out, at: 0 };
    if label.number != 0 {
        put_refused(&mut text, label.number);
    } else {
        put_area_lines(&mut text, &label, &pairs);
    }
    text.at
}

// The lines of the cells that share a page with one.
fn put_sharers(text: &mut Text, cell: u16, label: &CellLabel)
    requires { CellFits label.now }
    ensures { Adds text.old (flat_map (meet_line (sharer_numbered cell)) (take label.now.count label.now.cells)) text.new }
{
    // The place is read for its range: where nothing is put, it has to be one of 64 bits.
    let _place = text.at;
    let own = sharer_numbered(cell);
    for other in &label.cells[..usize::from(label.count)] {
        put_meeting(text, own, *other);
    }
}

// The lines of a cell's label that is not refused.
fn put_cell_lines(text: &mut Text, cell: u16, label: &CellLabel)
    requires { CellFits label.now }
    ensures { Adds text.old (cell_lines_of cell label.now) text.new }
{
    put_sharers(text, cell, label);
    text.put_named(b"cells", u64::from(label.count));
}

// The label of one cell.
pub fn put_cell_text(out: &mut [u8], ram: &[u16], s: Settings, cell: u16) -> usize
    ensures { PutFirst out.old (one_cell_text ram.now s cell) out.new result }
{
    let label = label_cell(ram, s, cell);
    let mut text = Text { out, at: 0 };
    if label.number != 0 {
        put_refused(&mut text, label.number);
    } else {
        put_cell_lines(&mut text, cell, &label);
    }
    text.at
}

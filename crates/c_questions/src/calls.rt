// The exported functions.
ghost use Rattle.std.specs.Prelude.{◌≡◌};
ghost use Rattle.layout.specs.Layout.{read_record};
ghost use Rattle.layout.specs.Writing.{write_record};
ghost use Rattle.area.specs.Area.{check_area};
ghost use Rattle.label.specs.Label.{cell_label, area_label, pairs_into};
ghost use Rattle.c_words.specs.Over.{over};
ghost use Rattle.c_words.specs.Setup.{settings_from};
ghost use Rattle.c_words_areas.specs.Check.{check_word};
ghost use Rattle.c_words_messages.specs.Values.{value_from, value_words};
ghost use Rattle.c_words_areas.specs.Labels.{listing_words, count_words};

use area::area::check_area;
use c_words::over::put_over;
use c_words::setup::settings_from;
use c_words_areas::checks::check_word;
use c_words_areas::labels::{put_counts, put_found};
use c_words_messages::values::{put_value, value_from};
use label::one::find_sharers;
use label::whole::label_area;
use layout::reader::read;
use layout::writer::write;

// The whole-area check: the number in the upper half, the cell in the lower.
#[unsafe(no_mangle)]
pub extern "C" fn solkverva_check_area(ram: &[u16], settings: &[u16]) -> u32
    ensures { result ≡ check_word (check_area ram.now (settings_from settings.now)) }
{
    check_word(check_area(ram, settings_from(settings)))
}

// The record reader.
#[unsafe(no_mangle)]
pub extern "C" fn solkverva_read(bytes: &[u8], value: &mut [u16]) -> u16
    ensures number { result ≡ (read_record bytes.now).number }
    ensures value { value.new ≡ over value.old (value_words (read_record bytes.now).value) }
{
    let r = read(bytes);
    put_value(value, r.value);
    r.number
}

// The record writer. A refusal goes back apart, so that the compiler works nothing out for both.
#[tactic(auto, using(crate::proofs::Refused::write_refused))]
#[unsafe(no_mangle)]
pub extern "C" fn solkverva_write(value: &[u16], bytes: &mut [u8]) -> u16
    ensures number { result ≡ (write_record (value_from value.now)).number }
    ensures bytes { bytes.new ≡ over bytes.old (write_record (value_from value.now)).bytes }
{
    let w = write(value_from(value));
    if w.number != 0 {
        put_over(bytes, 0, &[0; 80]);
        return w.number;
    }
    put_over(bytes, 0, &w.bytes);
    0
}

// The label of one cell: how many cells share words with it, and each with its mark.
#[tactic(auto, using(c_words_areas::proofs::Listed::found_number))]
#[unsafe(no_mangle)]
pub extern "C" fn solkverva_label_cell(
    ram: &[u16],
    settings: &[u16],
    cell: u16,
    listing: &mut [u16],
) -> u16
    ensures number { result ≡ (cell_label ram.now (settings_from settings.now) cell).number }
    ensures listing { listing.new ≡ over listing.old (listing_words (cell_label ram.now (settings_from settings.now) cell)) }
{
    let mut numbers = [0; 89];
    let found = find_sharers(ram, settings_from(settings), cell, &mut numbers);
    put_found(listing, &numbers, found.count);
    found.number
}

// The label of the whole area: how many cells are unsound and how many pairs there are, the unsound cells, and the
// pairs as far as there is room.
#[unsafe(no_mangle)]
pub extern "C" fn solkverva_label_area(
    ram: &[u16],
    settings: &[u16],
    counts: &mut [u16],
    unsound: &mut [u16],
    pairs: &mut [u16],
) -> u16
    ensures number { result ≡ (area_label ram.now (settings_from settings.now)).number }
    ensures counts { counts.new ≡ over counts.old (count_words (area_label ram.now (settings_from settings.now))) }
    ensures unsound { unsound.new ≡ over unsound.old (area_label ram.now (settings_from settings.now)).unsound }
    ensures pairs { pairs.new ≡ pairs_into ram.now (settings_from settings.now) pairs.old }
{
    let label = label_area(ram, settings_from(settings), pairs);
    put_counts(counts, label);
    put_over(unsound, 0, &label.unsound);
    label.number
}

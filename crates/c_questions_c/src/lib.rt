// The functions of `c_questions` for callers in C and Rust: numbers and slices only. A slice passes as a pointer and then
// a length. The C header is include/solkverva.h. Each export calls the library's function of its name and says what that
// says.

#![tactic(auto)]

ghost use Rattle.std.specs.Prelude.{◌≡◌};
ghost use Rattle.layout.specs.Layout.{read_record};
ghost use Rattle.layout.specs.Writing.{write_record};
ghost use Rattle.area.specs.Area.{check_area};
ghost use Rattle.label.specs.Label.{cell_label, area_label, pairs_into};
ghost use Rattle.c_words.specs.Over.{over};
ghost use Rattle.c_words.specs.Setup.{settings_from};
ghost use Rattle.c_words_areas.specs.Check.{check_word};
ghost use Rattle.c_words_messages.specs.Values.{value_from, value_words};
ghost use Rattle.c_words_areas.specs.Labels.{listing_words, count_words};
ghost use Rattle.soundness.specs.Described.{cell_description, stack_description};
ghost use Rattle.c_words_areas.specs.Descriptions.{cell_words, stack_words};

// The whole-area check: the number in the upper half, the cell in the lower.
#[unsafe(no_mangle)]
pub extern "C" fn solkverva_check_area(ram: &[u16], settings: &[u16]) -> u32
    ensures { result ≡ check_word (check_area ram.now (settings_from settings.now)) }
{
    c_questions::calls::solkverva_check_area(ram, settings)
}

// The record reader.
#[unsafe(no_mangle)]
pub extern "C" fn solkverva_read(bytes: &[u8], value: &mut [u16]) -> u16
    ensures number { result ≡ (read_record bytes.now).number }
    ensures value { value.new ≡ over value.old (value_words (read_record bytes.now).value) }
{
    c_questions::calls::solkverva_read(bytes, value)
}

// The record writer.
#[unsafe(no_mangle)]
pub extern "C" fn solkverva_write(value: &[u16], bytes: &mut [u8]) -> u16
    ensures number { result ≡ (write_record (value_from value.now)).number }
    ensures bytes { bytes.new ≡ over bytes.old (write_record (value_from value.now)).bytes }
{
    c_questions::calls::solkverva_write(value, bytes)
}

// The label of one cell: how many cells share words with it, and each with its mark.
#[unsafe(no_mangle)]
pub extern "C" fn solkverva_label_cell(
    ram: &[u16],
    settings: &[u16],
    cell: u16,
    listing: &mut [u16],
) -> u16
    ensures number { result ≡ (cell_label ram.now (settings_from settings.now) cell).number }
    ensures listing { listing.new ≡ over listing.old (listing_words (cell_label ram.now (settings_from settings.now) cell)) }
{
    c_questions::calls::solkverva_label_cell(ram, settings, cell, listing)
}

// The label of the whole area: how many cells are unsound and how many pairs there are, the unsound cells, and the
// pairs as far as there is room.
#[unsafe(no_mangle)]
pub extern "C" fn solkverva_label_area(
    ram: &[u16],
    settings: &[u16],
    counts: &mut [u16],
    unsound: &mut [u16],
    pairs: &mut [u16],
) -> u16
    ensures number { result ≡ (area_label ram.now (settings_from settings.now)).number }
    ensures counts { counts.new ≡ over counts.old (count_words (area_label ram.now (settings_from settings.now))) }
    ensures unsound { unsound.new ≡ over unsound.old (area_label ram.now (settings_from settings.now)).unsound }
    ensures pairs { pairs.new ≡ pairs_into ram.now (settings_from settings.now) pairs.old }
{
    c_questions::calls::solkverva_label_area(ram, settings, counts, unsound, pairs)
}

// A cell by its number, sound or not: where it lies, and why it is unsound.
#[unsafe(no_mangle)]
pub extern "C" fn solkverva_describe_cell(
    ram: &[u16],
    settings: &[u16],
    cell: u16,
    description: &mut [u16],
) -> u16
    ensures number { result ≡ (cell_description ram.now (settings_from settings.now) cell).number }
    ensures description { description.new ≡ over description.old (cell_words (cell_description ram.now (settings_from settings.now) cell)) }
{
    c_questions::descriptions::solkverva_describe_cell(ram, settings, cell, description)
}

// The stack, sound or not.
#[unsafe(no_mangle)]
pub extern "C" fn solkverva_describe_stack(
    ram: &[u16],
    settings: &[u16],
    description: &mut [u16],
) -> u16
    ensures number { result ≡ (stack_description ram.now (settings_from settings.now)).number }
    ensures description { description.new ≡ over description.old (stack_words (stack_description ram.now (settings_from settings.now))) }
{
    c_questions::descriptions::solkverva_describe_stack(ram, settings, description)
}

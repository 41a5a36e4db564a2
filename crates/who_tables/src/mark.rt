// A write's kind, place and cell in one word, and back again; and which words are such marks.
ghost use Rattle.std.specs.Prelude.{◌≡◌};
ghost use Rattle.who_tables.specs.Mark.{mark_of, part_marked, entry_of, place_fits, is_mark, is_entry};

use who::values::{part_kind, part_place};
use who_origin::origin::{Origin, Who};
use writes::part::Part;

// A write's kind, place and cell in one word. Numbers for kinds, since the C interface lends tables of such words.
#[tactic(auto, unfolding(crate::specs::Mark::mark_of))]
pub(crate) fn mark_of(cell: u16, part: Part) -> u16
    ensures { result ≡ mark_of cell part }
{
    8192 * (part_kind(part) % 8) + 128 * (part_place(part) % 64) + cell % 128
}

// The kind and place of a mark.
#[tactic(auto, unfolding(crate::specs::Mark::part_marked))]
fn part_marked(mark: u16) -> Part
    ensures { result ≡ part_marked mark }
{
    let place = mark / 128 % 64;
    match mark / 8192 {
        1 => Part::Data(place),
        2 => Part::Pointer,
        3 => Part::Stack(place),
        _ => Part::StackPointer,
    }
}

// What a number and a mark say; number 0 is no record's.
#[tactic(auto, unfolding(crate::specs::Mark::entry_of))]
pub(crate) fn entry_of(number: u64, mark: u16) -> Who
    ensures { result ≡ entry_of number mark }
{
    if number == 0 {
        return Who::AsInImage;
    }
    Who::Written(Origin {
        number,
        cell: mark % 128,
        part: part_marked(mark),
    })
}

// The place that a write of each kind has.
#[tactic(auto, unfolding(crate::specs::Mark::place_fits))]
fn place_fits(kind: u16, place: u16) -> bool
    ensures { result ≡ place_fits kind place }
{
    match kind {
        1 => 1 <= place && place <= 32,
        3 => 1 <= place && place <= 4,
        2 | 4 => place == 0,
        _ => false,
    }
}

#[tactic(auto, unfolding(crate::specs::Mark::is_mark))]
fn is_mark(mark: u16) -> bool
    ensures { result ≡ is_mark mark }
{
    mark % 128 < 96 && place_fits(mark / 8192, mark / 128 % 64)
}

// Nothing at all, or the number of a record with the mark of a write.
#[tactic(auto, unfolding(crate::specs::Mark::is_entry))]
pub(crate) fn is_entry(number: u64, mark: u16) -> bool
    ensures { result ≡ is_entry number mark }
{
    if number == 0 {
        return mark == 0;
    }
    is_mark(mark)
}

// An answer as numbers, for callers that have no enum.
ghost use Rattle.std.specs.Prelude.{◌≡◌};
ghost use Rattle.who.specs.Values.{part_kind, part_place, values_of};

use who_origin::origin::Who;
use writes::part::Part;

// The number that refuses, or 0; then the number of the last record that wrote there, or 0 where the word is as in the
// image; what it wrote, the cell of its message, and the place of the word.
#[derive(Clone, Copy, Debug, Default, PartialEq, Eq)]
pub struct Values {
    pub number: u16,
    pub last: u64,
    pub kind: u16,
    pub cell: u16,
    pub place: u16,
}

// 1 data word, 2 lookup pointer, 3 stack word, 4 stack pointer. Numbers for kinds, since C's callers take these.
pub fn part_kind(part: Part) -> u16
    ensures { result ≡ part_kind part }
{
    match part {
        Part::Data(_) => 1,
        Part::Pointer => 2,
        Part::Stack(_) => 3,
        Part::StackPointer => 4,
    }
}

pub fn part_place(part: Part) -> u16
    ensures { result ≡ part_place part }
{
    match part {
        Part::Data(place) | Part::Stack(place) => place,
        Part::Pointer | Part::StackPointer => 0,
    }
}

#[tactic(auto, unfolding(crate::specs::Values::values_of))]
pub fn values_of(who: Who) -> Values
    ensures { result ≡ values_of who }
{
    match who {
        Who::Refused(number) => Values {
            number,
            ..Values::default()
        },
        Who::AsInImage => Values::default(),
        Who::Written(origin) => Values {
            number: 0,
            last: origin.number,
            kind: part_kind(origin.part),
            cell: origin.cell,
            place: part_place(origin.part),
        },
    }
}

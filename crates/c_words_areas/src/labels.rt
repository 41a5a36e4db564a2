// The labels on shared pages as plain words.
ghost use Rattle.std.specs.Prelude.{◌≡◌, [], ◌∷◌, map, length, ◌≤◌, min};
ghost use Rattle.std.proofs.lemmas.List.Edits.{sets};
ghost use Rattle.label.specs.Listing.{front};
ghost use Rattle.label.specs.Label.{sharer_numbered, cell_answer};
ghost use Rattle.c_words.specs.Over.{over};
ghost use Rattle.c_words_areas.specs.Labels.{sharer_words, listing_words, count_words};

use c_words::over::put_over;
use label::one::{Numbers, sharer_numbered};
use label::whole::AreaLabel;
use memory::ram::put;

// The two words of a cell, each only where there is room for it. Where there is room for the second there is room for
// the first, so one test is left.
fn put_sharer(xs: &mut [u16], at: usize, number: u16)
    requires { at ≤ 177 }
    ensures { xs.new ≡ sets xs.old at (sharer_words (sharer_numbered number ∷ [])) }
{
    let other = sharer_numbered(number);
    let mark = u16::from(other.writes);
    if at + 1 < xs.len() {
        xs[at] = other.cell;
        xs[at + 1] = mark;
    } else {
        put(xs, at, other.cell);
    }
}

// The words of the cells with these numbers, from place 1 on.
#[tactic(auto, unfolding(crate::specs::Labels::sharer_words))]
fn put_sharers(xs: &mut [u16], numbers: &[u16])
    requires { length numbers.now ≤ 89 }
    ensures { xs.new ≡ sets xs.old 1 (sharer_words (map sharer_numbered numbers.now)) }
{
    for (k, &number) in numbers.iter().enumerate() {
        put_sharer(xs, 1 + 2 * k, number);
    }
}

// The listing of the cells with these numbers: of the first `count`, and no more than there can be. A listing without a
// cell comes first: 179 zeros.
pub fn put_found(xs: &mut [u16], numbers: &Numbers, count: u16)
    ensures { xs.new ≡ over xs.old (listing_words (cell_answer 0 (front numbers.now (min count 89)))) }
{
    put_over(xs, 0, &[0; 179]);
    let listed = count.min(89);
    put(xs, 0, listed);
    put_sharers(xs, &numbers[..usize::from(listed)]);
}

#[tactic(auto, using(c_words::proofs::Order::fields_put), unfolding(crate::specs::Labels::count_words))]
pub fn put_counts(xs: &mut [u16], label: AreaLabel)
    ensures { xs.new ≡ over xs.old (count_words label) }
{
    put(xs, 1, label.pairs);
    put(xs, 0, label.unsound_count);
}

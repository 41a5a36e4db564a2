// Words and bytes put over lent ones. Single words go from the last to the first: where there is room for the last
// there is room for all, so one test of the length is left. Many are copied upwards, as far as there is room.
ghost use Rattle.std.specs.Prelude.{◌≡◌, [], ◌∷◌};
ghost use Rattle.std.proofs.lemmas.List.Edits.{sets};

use memory::ram::put;
use records::value::Words;

// Four words from place `at` on.
#[tactic(auto, using(crate::proofs::Order::four_back))]
pub fn put_four(xs: &mut [u16], at: u16, a: u16, b: u16, c: u16, d: u16)
    ensures { xs.new ≡ sets xs.old at (a ∷ b ∷ c ∷ d ∷ []) }
{
    let first = usize::from(at);
    put(xs, first + 3, d);
    put(xs, first + 2, c);
    put(xs, first + 1, b);
    put(xs, first, a);
}

// Values from place `at` on, as far as there is room.
#[tactic(auto, using(crate::proofs::Room::copied_over))]
pub fn put_over<T: Copy>(xs: &mut [T], at: usize, values: &[T])
    ensures { xs.new ≡ sets xs.old at values.now }
{
    let first = at.min(xs.len());
    let room = values.len().min(xs.len() - first);
    xs[first..first + room].copy_from_slice(&values[..room]);
}

// The thirty-two words of a value, from place 4 on. Where there is room for all, the compiler sees a copy of fixed
// length.
pub fn put_words(xs: &mut [u16], words: Words)
    ensures { xs.new ≡ sets xs.old 4 words }
{
    if xs.len() < 36 {
        put_over(xs, 4, &words);
    } else {
        xs[4..36].copy_from_slice(&words);
    }
}

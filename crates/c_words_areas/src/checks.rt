// The whole-area check's answer as one number.
ghost use Rattle.std.specs.Prelude.{◌≡◌};
ghost use Rattle.c_words_areas.specs.Check.{check_word};

use area::area::Checked;

// The number in the upper half, the cell in the lower.
#[tactic(auto, unfolding(crate::specs::Check::check_word))]
pub fn check_word(c: Checked) -> u32
    ensures { result ≡ check_word c }
{
    65536 * u32::from(c.number) + u32::from(c.cell)
}

// What a cell and the stack are like, as plain words.
ghost use Rattle.std.specs.Prelude.{◌≡◌};
ghost use Rattle.c_words.specs.Over.{over};
ghost use Rattle.c_words_areas.specs.Descriptions.{cell_words, stack_words};

use c_words::over::put_four;
use soundness::cell::CellDescription;
use soundness::stack::StackDescription;

pub fn put_cell(xs: &mut [u16], d: CellDescription)
    ensures { xs.new ≡ over xs.old (cell_words d) }
{
    put_four(xs, 4, d.pointer, d.start, d.size, d.faults);
    put_four(xs, 0, d.kind, d.subaddress, u16::from(d.read), d.scheme);
}

#[tactic(auto, unfolding(crate::specs::Descriptions::stack_words))]
pub fn put_stack(xs: &mut [u16], d: StackDescription)
    ensures { xs.new ≡ over xs.old (stack_words d) }
{
    put_four(xs, 0, d.pointer, d.start, d.size, d.faults);
}

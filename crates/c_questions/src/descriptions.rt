// What a cell and the stack are like, for callers.
ghost use Rattle.std.specs.Prelude.{◌≡◌};
ghost use Rattle.soundness.specs.Described.{cell_description, stack_description};
ghost use Rattle.c_words.specs.Over.{over};
ghost use Rattle.c_words.specs.Setup.{settings_from};
ghost use Rattle.c_words_areas.specs.Descriptions.{cell_words, stack_words};

use c_words::setup::settings_from;
use c_words_areas::descriptions::{put_cell, put_stack};
use soundness::cell::describe_cell;
use soundness::stack::describe_stack;

// A cell by its number, sound or not: where it lies, and why it is unsound.
#[unsafe(no_mangle)]
pub extern "C" fn solkverva_describe_cell(
    ram: &[u16],
    settings: &[u16],
    cell: u16,
    description: &mut [u16],
) -> u16
    ensures number { result ≡ (cell_description ram.now (settings_from settings.now) cell).number }
    ensures description { description.new ≡ over description.old (cell_words (cell_description ram.now (settings_from settings.now) cell)) }
{
    let d = describe_cell(ram, settings_from(settings), cell);
    put_cell(description, d);
    d.number
}

// The stack, sound or not.
#[unsafe(no_mangle)]
pub extern "C" fn solkverva_describe_stack(
    ram: &[u16],
    settings: &[u16],
    description: &mut [u16],
) -> u16
    ensures number { result ≡ (stack_description ram.now (settings_from settings.now)).number }
    ensures description { description.new ≡ over description.old (stack_words (stack_description ram.now (settings_from settings.now))) }
{
    let d = describe_stack(ram, settings_from(settings));
    put_stack(description, d);
    d.number
}

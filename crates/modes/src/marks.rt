// What a mode command in effect does to the marks.
ghost use Rattle.std.specs.Prelude.{◌≡◌};
ghost use Rattle.modes.specs.Marks.{marks_after};

use crate::code::{
    INHIBIT_TERMINAL_FLAG, OVERRIDE_INHIBIT, OVERRIDE_SHUTDOWN, RESET_TERMINAL,
    TRANSMITTER_SHUTDOWN,
};
use crate::remembered::{Marks, no_marks, with_inhibit, with_other_bus};

// By the code; the bus is the one that the command came on.
#[tactic(auto, unfolding(crate::specs::Marks::marks_after))]
pub fn marks_after(code: u16, second_bus: bool, marks: Marks) -> Marks
    ensures { result ≡ marks_after code second_bus marks }
{
    match code {
        TRANSMITTER_SHUTDOWN => with_other_bus(marks, second_bus, true),
        OVERRIDE_SHUTDOWN => with_other_bus(marks, second_bus, false),
        INHIBIT_TERMINAL_FLAG => with_inhibit(marks, true),
        OVERRIDE_INHIBIT => with_inhibit(marks, false),
        RESET_TERMINAL => no_marks(),
        _ => marks,
    }
}

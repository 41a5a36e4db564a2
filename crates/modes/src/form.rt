// The forms of a mode command that the table defines.
ghost use Rattle.std.specs.Prelude.{◌≡◌};
ghost use Rattle.modes.specs.Form.{is_defined};

use crate::table::mode_of;
use words::command;

// Whether the table allows the command's code with its transmit bit, and as a broadcast where it is one.
#[tactic(auto, unfolding(crate::specs::Form::is_defined))]
pub fn is_defined(broadcast: bool, command: u16) -> bool
    ensures { result ≡ is_defined broadcast command }
{
    let mode = mode_of(command::count_field(command));
    mode.defined && mode.transmit == command::transmit(command) && (mode.broadcast || !broadcast)
}

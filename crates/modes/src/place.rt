// Where a mode command's data word lives.
ghost use Rattle.std.specs.Prelude.{◌≡◌, ◌≤◌};
ghost use Rattle.modes.specs.Place.{first_place, mode_place};

use memory::kind::{Kind, kind_of};
use words::command;
use words::settings::Settings;

// The first of the sixteen places of a kind.
fn first_place(kind: Kind) -> u16
    ensures { (result ≡ first_place kind) × (result ≤ 0x130) }
{
    match kind {
        Kind::Receive => 0x110,
        Kind::Transmit => 0x120,
        Kind::Broadcast => 0x130,
    }
}

#[tactic(auto, unfolding(crate::specs::Place::mode_place))]
pub fn mode_place(s: Settings, command: u16) -> u16
    ensures { result ≡ mode_place s command }
{
    first_place(kind_of(s, command)) + command::count_field(command) % 16
}

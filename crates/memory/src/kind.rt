// The kind of a cell, its number, and which kind a command uses.
ghost use Rattle.std.specs.Prelude.{◌≡◌};
ghost use Rattle.memory.specs.Kind.{kind_number, cell_number, kind_numbered, able_to_write, kind_of};

use words::command;
use words::settings::{Settings, is_broadcast};

#[derive(Clone, Copy, Debug, PartialEq, Eq)]
pub enum Kind {
    Receive = 0,
    Transmit = 1,
    Broadcast = 2,
}

// The number of a kind. A function beside `kind as u16`, since `docs/DECISIONS.md` names its promise.
pub fn kind_number(kind: Kind) -> u16
    ensures { result ≡ kind_number kind }
{
    kind as u16
}

// The number fits a u16 for every subaddress that a command can name, and a usize for any other.
#[tactic(auto, unfolding(crate::specs::Kind::cell_number))]
pub fn cell_number(kind: Kind, subaddress: u16) -> usize
    ensures { result ≡ cell_number kind subaddress }
{
    32 * (kind_number(kind) as usize) + subaddress as usize
}

// The kind of the cell with this number. No `From`: it is a cell's number and not a kind's.
#[tactic(auto, unfolding(crate::specs::Kind::kind_numbered))]
pub fn kind_numbered(number: u16) -> Kind
    ensures { result ≡ kind_numbered number }
{
    match number {
        0..32 => Kind::Receive,
        32..64 => Kind::Transmit,
        _ => Kind::Broadcast,
    }
}

// Receive and broadcast cells are written to; a transmit cell only sends.
pub fn able_to_write(kind: Kind) -> bool
    ensures { result ≡ able_to_write kind }
{
    matches!(kind, Kind::Receive | Kind::Broadcast)
}

// The kind of the cell that a command uses.
#[tactic(auto, unfolding(crate::specs::Kind::kind_of))]
pub fn kind_of(s: Settings, command: u16) -> Kind
    ensures { result ≡ kind_of s command }
{
    if command::transmit(command) {
        Kind::Transmit
    } else if s.separate_broadcast && is_broadcast(s, command) {
        Kind::Broadcast
    } else {
        Kind::Receive
    }
}

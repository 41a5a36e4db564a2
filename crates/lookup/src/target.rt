// What a command is aimed at: the cell, its window, and whether the command is broadcast, illegal or busy.
ghost use Rattle.std.specs.Prelude.{◌≡◌};
ghost use Rattle.lookup.specs.Target.{cell_for, is_illegal, is_busy, target_with, target_of};

use cells::cell::{Cell, cell_by_kind, window_of};
use memory::kind::{cell_number, kind_of};
use memory::map::{is_busy_at, is_illegal_at};
use windows::window::Window;
use words::command;
use words::settings::{Settings, is_broadcast, is_own};

#[derive(Clone, Copy, Debug, PartialEq, Eq)]
pub struct Target {
    pub cell: Cell,
    pub window: Window,
    pub broadcast: bool,
    pub illegal: bool,
    pub busy: bool,
    pub number: u16,
}

// The cell that a command uses.
#[tactic(auto, unfolding(crate::specs::Target::cell_for))]
pub fn cell_for(ram: &[u16], s: Settings, command: u16) -> Cell
    ensures { result ≡ cell_for ram.now s command }
{
    let kind = kind_of(s, command);
    cell_by_kind(ram, s.area, kind, command::subaddress(command))
}

#[tactic(auto, unfolding(crate::specs::Target::is_illegal))]
fn is_illegal(ram: &[u16], s: Settings, command: u16) -> bool
    ensures { result ≡ is_illegal ram.now s command }
{
    is_illegal_at(ram, is_own(s, command), command)
}

#[tactic(auto, unfolding(crate::specs::Target::is_busy))]
fn is_busy(ram: &[u16], s: Settings, command: u16) -> bool
    ensures { result ≡ is_busy ram.now s command }
{
    is_busy_at(ram, is_own(s, command), command) || s.busy_always
}

// Over the cell and its window, for whoever has worked them out.
#[tactic(auto, using(memory::proofs::Numbers::number_fits))]
pub fn target_with(ram: &[u16], s: Settings, command: u16, cell: Cell, window: Window) -> Target
    ensures { result ≡ target_with ram.now s command cell window }
{
    let number = cell_number(kind_of(s, command), command::subaddress(command)) as u16;
    Target {
        cell,
        number,
        window,
        broadcast: is_broadcast(s, command),
        illegal: is_illegal(ram, s, command),
        busy: is_busy(ram, s, command),
    }
}

#[tactic(auto, unfolding(crate::specs::Target::target_of))]
pub fn target_of(ram: &[u16], s: Settings, command: u16) -> Target
    ensures { result ≡ target_of ram.now s command }
{
    let cell = cell_for(ram, s, command);
    target_with(ram, s, command, cell, window_of(cell.scheme, cell.pointer))
}

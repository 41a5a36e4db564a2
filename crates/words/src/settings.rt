// Settings, and what they alone decide.
ghost use Rattle.std.specs.Prelude.{◌≡◌};
ghost use Rattle.words.specs.Settings.{stack_size_listed, highest_address, settings_refused, is_own, is_broadcast, is_not_ours, has_broadcast_cells, program_settings};

use crate::command::address;

#[derive(Clone, Copy, Debug, PartialEq, Eq)]
pub enum Area {
    A,
    B,
}

// By value, and able to hold settings that are refused.
#[derive(Clone, Copy, Debug, PartialEq, Eq)]
pub struct Settings {
    pub address: u16,
    pub area: Area,
    pub stack_size: u16,
    pub overwrite_invalid: bool,
    pub separate_broadcast: bool,
    pub illegal_receive_disable: bool,
    pub busy_receive_disable: bool,
    pub busy_always: bool,
    pub service_request: bool,
    pub subsystem_flag: bool,
    pub terminal_flag: bool,
    pub broadcast: bool,
}

#[tactic(auto, unfolding(crate::specs::Settings::stack_size_listed))]
fn stack_size_listed(size: u16) -> bool
    ensures { result ≡ stack_size_listed size }
{
    matches!(size, 256 | 512 | 1024 | 2048)
}

fn highest_address(s: Settings) -> u16
    ensures { result ≡ highest_address s }
{
    if s.broadcast { 30 } else { 31 }
}

#[tactic(auto, unfolding(crate::specs::Settings::settings_refused))]
pub fn settings_refused(s: Settings) -> bool
    ensures { result ≡ settings_refused s }
{
    highest_address(s) < s.address || !stack_size_listed(s.stack_size)
}

#[tactic(auto, unfolding(crate::specs::Settings::is_own))]
pub fn is_own(s: Settings, command: u16) -> bool
    ensures { result ≡ is_own s command }
{
    address(command) == s.address
}

#[tactic(auto, unfolding(crate::specs::Settings::is_broadcast))]
pub fn is_broadcast(s: Settings, command: u16) -> bool
    ensures { result ≡ is_broadcast s command }
{
    s.broadcast && address(command) == 31
}

#[tactic(auto, unfolding(crate::specs::Settings::is_not_ours))]
pub fn is_not_ours(s: Settings, command: u16) -> bool
    ensures { result ≡ is_not_ours s command }
{
    !is_own(s, command) && !is_broadcast(s, command)
}

// Whether broadcast cells are read and used.
#[tactic(auto, unfolding(crate::specs::Settings::has_broadcast_cells))]
pub fn has_broadcast_cells(s: Settings) -> bool
    ensures { result ≡ has_broadcast_cells s }
{
    s.broadcast && s.separate_broadcast
}

// The settings of the programs that are given none.
#[tactic(auto, unfolding(crate::specs::Settings::program_settings))]
pub fn program_settings() -> Settings
    ensures { result ≡ program_settings }
{
    Settings {
        address: 5,
        area: Area::A,
        stack_size: 256,
        overwrite_invalid: true,
        separate_broadcast: false,
        illegal_receive_disable: false,
        busy_receive_disable: false,
        busy_always: false,
        service_request: false,
        subsystem_flag: false,
        terminal_flag: false,
        broadcast: true,
    }
}

// The memory map: where the terminal's own words stand in RAM.
ghost use Rattle.std.specs.Prelude.{◌≡◌, ◌<◌};
ghost use Rattle.memory.specs.Map.{ram_refused, stack_pointer_place, lookup_table, control_place, busy_place, illegal_place, bit_set, is_busy_at, is_illegal_at};

use crate::ram::word_at;
use words::command;
use words::settings::Area;

#[tactic(auto, unfolding(crate::specs::Map::ram_refused))]
pub fn ram_refused(words: usize) -> bool
    ensures { result ≡ ram_refused words }
{
    !matches!(words, 4096 | 65536)
}

#[tactic(auto, unfolding(crate::specs::Map::stack_pointer_place))]
pub fn stack_pointer_place(area: Area) -> usize
    ensures { result ≡ stack_pointer_place area }
{
    match area {
        Area::A => 0x100,
        Area::B => 0x104,
    }
}

#[tactic(auto, unfolding(crate::specs::Map::lookup_table))]
pub fn lookup_table(area: Area) -> usize
    ensures { result ≡ lookup_table area }
{
    match area {
        Area::A => 0x140,
        Area::B => 0x1C0,
    }
}

#[tactic(auto, using(crate::proofs::Places::table_low))]
pub fn control_place(area: Area, subaddress: u16) -> usize
    ensures { result ≡ control_place area subaddress }
{
    lookup_table(area) + 96 + subaddress as usize
}

#[tactic(auto, unfolding(crate::specs::Map::busy_place))]
fn busy_place(own: bool, command: u16) -> usize
    ensures { result ≡ busy_place own command }
{
    let sub = command::subaddress(command);
    let place = 0x240 + 4 * u16::from(own) + 2 * u16::from(command::transmit(command)) + sub / 16;
    place as usize
}

#[tactic(auto, unfolding(crate::specs::Map::illegal_place))]
fn illegal_place(own: bool, command: u16) -> usize
    ensures { result ≡ illegal_place own command }
{
    let sub = command::subaddress(command);
    let field = command::count_field(command);
    let place = 0x300
        + 128 * u16::from(own)
        + 64 * u16::from(command::transmit(command))
        + 2 * sub
        + field / 16;
    place as usize
}

// Bit `bit` of `word`.
fn bit_set(word: u16, bit: u16) -> bool
    requires { bit < 16 }
    ensures { result ≡ bit_set word bit }
{
    (word >> bit) % 2 == 1
}

#[tactic(auto, unfolding(crate::specs::Map::is_busy_at))]
pub fn is_busy_at(ram: &[u16], own: bool, command: u16) -> bool
    ensures { result ≡ is_busy_at ram.now own command }
{
    bit_set(
        word_at(ram, busy_place(own, command)),
        command::subaddress(command) % 16,
    )
}

#[tactic(auto, unfolding(crate::specs::Map::is_illegal_at))]
pub fn is_illegal_at(ram: &[u16], own: bool, command: u16) -> bool
    ensures { result ≡ is_illegal_at ram.now own command }
{
    bit_set(
        word_at(ram, illegal_place(own, command)),
        command::count_field(command) % 16,
    )
}

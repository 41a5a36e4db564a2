// Settings and remembered state from plain words, read and put from the last to the first.
ghost use Rattle.std.specs.Prelude.{◌≡◌};
ghost use Rattle.c_words.specs.Over.{over};
ghost use Rattle.c_words.specs.Setup.{area_from, settings_from, remembered_from, remembered_words};

use memory::ram::{put, word_at};
use words::remembered::Remembered;
use words::settings::{Area, Settings};

#[tactic(auto, unfolding(crate::specs::Setup::area_from))]
fn area_from(w: u16) -> Area
    ensures { result ≡ area_from w }
{
    if w == 0 { Area::A } else { Area::B }
}

#[tactic(auto, unfolding(crate::specs::Setup::settings_from))]
pub fn settings_from(xs: &[u16]) -> Settings
    ensures { result ≡ settings_from xs.now }
{
    let broadcast = word_at(xs, 11) == 0;
    let terminal_flag = word_at(xs, 10) != 0;
    let subsystem_flag = word_at(xs, 9) != 0;
    let service_request = word_at(xs, 8) != 0;
    let busy_always = word_at(xs, 7) != 0;
    let busy_receive_disable = word_at(xs, 6) != 0;
    let illegal_receive_disable = word_at(xs, 5) != 0;
    let separate_broadcast = word_at(xs, 4) != 0;
    let overwrite_invalid = word_at(xs, 3) != 0;
    let stack_size = word_at(xs, 2);
    let area = area_from(word_at(xs, 1));
    Settings {
        address: word_at(xs, 0),
        area,
        stack_size,
        overwrite_invalid,
        separate_broadcast,
        illegal_receive_disable,
        busy_receive_disable,
        busy_always,
        service_request,
        subsystem_flag,
        terminal_flag,
        broadcast,
    }
}

#[tactic(auto, unfolding(crate::specs::Setup::remembered_from))]
pub fn remembered_from(xs: &[u16]) -> Remembered
    ensures { result ≡ remembered_from xs.now }
{
    let status = word_at(xs, 1);
    Remembered {
        command: word_at(xs, 0),
        status,
    }
}

#[tactic(auto, using(crate::proofs::Order::fields_put), unfolding(crate::specs::Setup::remembered_words))]
pub fn put_remembered(xs: &mut [u16], m: Remembered)
    ensures { xs.new ≡ over xs.old (remembered_words m) }
{
    put(xs, 1, m.status);
    put(xs, 0, m.command);
}

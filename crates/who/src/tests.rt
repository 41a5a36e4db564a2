// What is tested before a trace is replayed.
ghost use Rattle.std.specs.Prelude.{◌≡◌};
ghost use Rattle.who.specs.Tests.{replay_refusal, who_refusal};

use memory::map::ram_refused;
use words::number::{ADDRESS_BEYOND, BAD_SETTINGS, RAM_LENGTH};
use words::settings::{Settings, settings_refused};

// 1, then 3.
#[tactic(auto, unfolding(crate::specs::Tests::replay_refusal, words::specs::Refusal::first_of))]
fn replay_refusal(words: usize, s: Settings) -> u16
    ensures { result ≡ replay_refusal words s }
{
    if ram_refused(words) {
        return RAM_LENGTH;
    }
    if settings_refused(s) {
        return BAD_SETTINGS;
    }
    0
}

// 1, 3, then 12.
#[tactic(auto, using(crate::proofs::Early::who_stops, crate::proofs::Early::who_passes), unfolding(words::specs::Refusal::first_of))]
pub fn who_refusal(words: usize, s: Settings, address: u16) -> u16
    ensures { result ≡ who_refusal words s address }
{
    let number = replay_refusal(words, s);
    if number != 0 {
        return number;
    }
    if words <= address as usize {
        return ADDRESS_BEYOND;
    }
    0
}

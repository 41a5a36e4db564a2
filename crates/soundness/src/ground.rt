// What is tested before a cell or the stack is described.
ghost use Rattle.std.specs.Prelude.{◌≡◌};
ghost use Rattle.soundness.specs.Described.{given_refusal};

use memory::map::ram_refused;
use words::number::{BAD_SETTINGS, RAM_LENGTH};
use words::settings::{Settings, settings_refused};

// 1, then 3.
#[tactic(auto, unfolding(crate::specs::Described::given_refusal, words::specs::Refusal::first_of))]
pub(crate) fn given_refusal(words: usize, s: Settings) -> u16
    ensures { result ≡ given_refusal words s }
{
    if ram_refused(words) {
        RAM_LENGTH
    } else if settings_refused(s) {
        BAD_SETTINGS
    } else {
        0
    }
}

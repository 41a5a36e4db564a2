// The first tests of a message, each asked only where none before it holds.
ghost use Rattle.std.specs.Prelude.{◌≡◌};
ghost use Rattle.words.specs.Refusal.{first_of};
ghost use Rattle.words.specs.Refusals.{number_in};
ghost use Rattle.message.specs.Tests.{early_tests, address_tests};

use memory::map::ram_refused;
use words::command::mode_subaddress;
use words::refusal::Refusal;
use words::settings::{Settings, is_not_ours, settings_refused};

// About RAM, reply buffer and settings.
#[tactic(auto, unfolding(words::specs::Refusal::first_of))]
pub(crate) fn early_refusal(words: usize, room: usize, s: Settings) -> Result<(), Refusal>
    ensures { number_in result ≡ first_of (early_tests words room s) }
{
    if ram_refused(words) {
        return Err(Refusal::RamLength);
    }
    if room < 33 {
        return Err(Refusal::ReplyRoom);
    }
    if settings_refused(s) {
        return Err(Refusal::BadSettings);
    }
    Ok(())
}

// About the command's address and subaddress.
#[tactic(auto, unfolding(words::specs::Refusal::first_of))]
pub(crate) fn address_refusal(s: Settings, command: u16) -> Result<(), Refusal>
    ensures { number_in result ≡ first_of (address_tests s command) }
{
    if is_not_ours(s, command) {
        return Err(Refusal::OtherAddress);
    }
    if mode_subaddress(command) {
        return Err(Refusal::ModeSubaddress);
    }
    Ok(())
}

// The mode codes that a rule names, and what a mode command's code says by itself.
ghost use Rattle.std.specs.Prelude.{◌≡◌};
ghost use Rattle.modes.specs.Code.{brings_word, fetches_word, mode_words, recalls};

use words::command;

// Numbers, and no enum: each of the 32 codes may come, and a rule names these seven alone.
pub const TRANSMIT_STATUS_WORD: u16 = 2;

pub const TRANSMITTER_SHUTDOWN: u16 = 4;

pub const OVERRIDE_SHUTDOWN: u16 = 5;

pub const INHIBIT_TERMINAL_FLAG: u16 = 6;

pub const OVERRIDE_INHIBIT: u16 = 7;

pub const RESET_TERMINAL: u16 = 8;

pub const TRANSMIT_LAST_COMMAND: u16 = 18;

// A receive command whose code has a data word.
#[tactic(auto, unfolding(crate::specs::Code::brings_word))]
pub fn brings_word(command: u16) -> bool
    ensures { result ≡ brings_word command }
{
    !command::transmit(command) && 16 <= command::count_field(command)
}

// A transmit command whose code has a data word.
#[tactic(auto, unfolding(crate::specs::Code::fetches_word))]
pub fn fetches_word(command: u16) -> bool
    ensures { result ≡ fetches_word command }
{
    command::transmit(command) && 16 <= command::count_field(command)
}

// How many words are expected of a mode command.
#[tactic(auto, unfolding(crate::specs::Code::mode_words))]
pub fn mode_words(command: u16) -> u16
    ensures { result ≡ mode_words command }
{
    u16::from(brings_word(command))
}

// Transmit status word and transmit last command return what was remembered before them.
#[tactic(auto, unfolding(crate::specs::Code::recalls))]
pub fn recalls(command: u16) -> bool
    ensures { result ≡ recalls command }
{
    let code = command::count_field(command);
    command::mode_subaddress(command)
        && matches!(code, TRANSMIT_STATUS_WORD | TRANSMIT_LAST_COMMAND)
}

// The fields of a command word.
ghost use Rattle.std.specs.Prelude.{◌≡◌};
ghost use Rattle.words.specs.Command.{address_of, transmits, subaddress_of, count_field, word_count, is_mode_subaddress};

pub fn address(command: u16) -> u16
    ensures { result ≡ address_of command }
{
    command / 2048
}

pub fn transmit(command: u16) -> bool
    ensures { result ≡ transmits command }
{
    command / 1024 % 2 == 1
}

pub fn subaddress(command: u16) -> u16
    ensures { result ≡ subaddress_of command }
{
    command / 32 % 32
}

pub fn count_field(command: u16) -> u16
    ensures { result ≡ count_field command }
{
    command % 32
}

#[tactic(auto, unfolding(crate::specs::Command::word_count))]
pub fn word_count(command: u16) -> u16
    ensures { result ≡ word_count command }
{
    let field = count_field(command);
    if field == 0 { 32 } else { field }
}

#[tactic(auto, unfolding(crate::specs::Command::is_mode_subaddress))]
pub fn mode_subaddress(command: u16) -> bool
    ensures { result ≡ is_mode_subaddress command }
{
    matches!(subaddress(command), 0 | 31)
}

// What the terminal remembers from one message to the next.
ghost use Rattle.std.specs.Prelude.{◌≡◌};
ghost use Rattle.words.specs.Remembered.{nothing_remembered, remembering};

#[derive(Clone, Copy, Debug, Default, PartialEq, Eq)]
pub struct Remembered {
    pub command: u16,
    pub status: u16,
}

pub fn nothing_remembered() -> Remembered
    ensures { result ≡ nothing_remembered }
{
    Remembered::default()
}

// A command and a status, put over what was remembered before.
pub fn remembering(before: Remembered, command: u16, status: u16) -> Remembered
    ensures { result ≡ remembering before command status }
{
    Remembered {
        command,
        status,
        ..before
    }
}

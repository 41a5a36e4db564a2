// The constant table of the 32 mode codes: which transmit bit, data word and broadcast MIL-STD-1553B allows.
ghost use Rattle.std.specs.Prelude.{◌≡◌};
ghost use Rattle.modes.specs.Table.{mode_of};

// What the table says of a code; of a reserved one, that it is not defined. A flag, and no `Option`: `mode_of` and the
// laws of the table (`mode_ruled`, `fifteen_defined`) speak of an entry for each code.
#[derive(Clone, Copy, Debug, PartialEq, Eq)]
pub struct Mode {
    pub defined: bool,
    pub transmit: bool,
    pub word: bool,
    pub broadcast: bool,
}

// A code that the standard leaves open.
const RESERVED: Mode = Mode {
    defined: false,
    transmit: false,
    word: false,
    broadcast: false,
};

// A transmit command that asks one terminal, with no data word.
const TRANSMIT: Mode = Mode {
    defined: true,
    transmit: true,
    ..RESERVED
};

// A transmit command that tells one terminal or all of them, with no data word.
const TRANSMIT_BROADCAST: Mode = Mode {
    broadcast: true,
    ..TRANSMIT
};

// A transmit command that asks one terminal for a data word.
const TRANSMIT_WORD: Mode = Mode {
    word: true,
    ..TRANSMIT
};

// A receive command that tells one terminal or all of them a data word.
const RECEIVE_WORD_BROADCAST: Mode = Mode {
    transmit: false,
    word: true,
    ..TRANSMIT_BROADCAST
};

const MODES: [Mode; 32] = [
    // 0 dynamic bus control
    TRANSMIT,
    // 1 synchronize
    TRANSMIT_BROADCAST,
    // 2 transmit status word
    TRANSMIT,
    // 3 initiate self-test
    TRANSMIT_BROADCAST,
    // 4 transmitter shutdown
    TRANSMIT_BROADCAST,
    // 5 override transmitter shutdown
    TRANSMIT_BROADCAST,
    // 6 inhibit terminal flag
    TRANSMIT_BROADCAST,
    // 7 override inhibit terminal flag
    TRANSMIT_BROADCAST,
    // 8 reset remote terminal
    TRANSMIT_BROADCAST,
    // 9 reserved
    RESERVED,
    // 10 reserved
    RESERVED,
    // 11 reserved
    RESERVED,
    // 12 reserved
    RESERVED,
    // 13 reserved
    RESERVED,
    // 14 reserved
    RESERVED,
    // 15 reserved
    RESERVED,
    // 16 transmit vector word
    TRANSMIT_WORD,
    // 17 synchronize with data word
    RECEIVE_WORD_BROADCAST,
    // 18 transmit last command
    TRANSMIT_WORD,
    // 19 transmit BIT word
    TRANSMIT_WORD,
    // 20 selected transmitter shutdown
    RECEIVE_WORD_BROADCAST,
    // 21 override selected transmitter shutdown
    RECEIVE_WORD_BROADCAST,
    // 22 reserved
    RESERVED,
    // 23 reserved
    RESERVED,
    // 24 reserved
    RESERVED,
    // 25 reserved
    RESERVED,
    // 26 reserved
    RESERVED,
    // 27 reserved
    RESERVED,
    // 28 reserved
    RESERVED,
    // 29 reserved
    RESERVED,
    // 30 reserved
    RESERVED,
    // 31 reserved
    RESERVED,
];

#[tactic(auto, unfolding(crate::specs::Table::mode_of, crate::specs::Table::modes))]
pub fn mode_of(code: u16) -> Mode
    ensures { result ≡ mode_of code }
{
    MODES[usize::from(code % 32)]
}

// The two hexadecimal digits of every byte, worked out once for the words of many lines.
ghost use Rattle.std.specs.Prelude.{◌≡◌, ◌/◌, ◌%◌};
ghost use Rattle.text.specs.Text.{hex_digit};
ghost use Rattle.text.specs.Table.{hex_table};

use crate::text::hex_digit;

// The digits of byte b stand at places 2b and 2b + 1.
pub type Table = [u8; 512];

pub fn hex_table() -> Table
    ensures { result ≡ hex_table }
{
    let mut digits = [0u8; 512];
    for b in 0..256 {
        digits[2 * b] = hex_digit(b as u16 / 16);
        digits[2 * b + 1] = hex_digit(b as u16 % 16);
    }
    digits
}

// The table, and the fact that it is one of the digits.
#[derive(Clone, Copy, Debug, PartialEq, Eq)]
pub struct HexTable {
    digits: Table,
    ghost worked_out: { digits ≡ hex_table },
}

impl HexTable {
    pub fn new() -> HexTable
        ensures { result.digits ≡ hex_table }
    {
        HexTable {
            digits: hex_table(),
        }
    }

    // The digits as they stand in the table.
    pub fn digits(&self) -> Table
        ensures { result ≡ hex_table }
    {
        self.digits
    }

    // The two digits of a byte.
    #[inline(always)]
    pub(crate) fn pair(&self, b: u8) -> (u8, u8)
        ensures first { result.0 ≡ hex_digit (b / 16) }
        ensures second { result.1 ≡ hex_digit (b % 16) }
    {
        let at = 2 * b as usize;
        (self.digits[at], self.digits[at + 1])
    }
}

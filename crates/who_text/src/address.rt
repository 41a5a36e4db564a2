// An address as a person asks for it: four hexadecimal digits, `0` to `9` and `A` to `F`, and the end of the line.
ghost use Rattle.std.specs.Prelude.{◌≡◌, ◌<◌, MatchOption};
ghost use Rattle.who_text.specs.Address.{digit_of, asked_of, address_in};

// A digit's value, if the byte is one.
#[tactic(auto, unfolding(crate::specs::Address::digit_of))]
fn digit_of(b: u8) -> Option<u16>
    ensures { MatchOption result (digit_of b ≡ 16) (λ d. (d ≡ digit_of b) × (d < 16)) }
{
    match b {
        b'0'..=b'9' => Some(u16::from(b - b'0')),
        b'A'..=b'F' => Some(u16::from(b - b'A') + 10),
        _ => None,
    }
}

pub fn read_address(line: &[u8]) -> Option<u16>
    ensures { asked_of result ≡ address_in line.now }
{
    let [first, second, third, fourth, b'\n', ..] = line else {
        return None;
    };
    let high = 4096 * digit_of(*first)? + 256 * digit_of(*second)?;
    Some(high + 16 * digit_of(*third)? + digit_of(*fourth)?)
}

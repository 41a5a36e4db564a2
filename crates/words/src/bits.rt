// A word from its bits.
ghost use Rattle.std.specs.Prelude.{◌≡◌};
ghost use Rattle.words.specs.Bits.{word_of};

// The bits of a word, from bit 15 down to bit 0.
pub type Bits = [bool; 16];

// The word with these bits.
#[tactic(auto, unfolding(crate::specs::Bits::bits_of), using(crate::proofs::BitLaws::bits_fit))]
pub fn word_of(bits: Bits) -> u16
    ensures { result ≡ word_of bits }
{
    let mut word: u16 = 0;
    for bit in bits {
        word = 2 * word + u16::from(bit);
    }
    word
}

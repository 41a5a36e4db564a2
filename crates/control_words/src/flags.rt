// The general-purpose flags after an FLG instruction.
ghost use Rattle.std.specs.Prelude.{◌≡◌};
ghost use Rattle.control_words.specs.Flags.{flags_after};

// All eight at once: what is not cleared stays, and what is set and was not becomes 1. A flag that is both set and
// cleared toggles by these two.
#[tactic(auto, using(crate::proofs::Bitwise::flags_by_bits))]
pub fn flags_after(flags: u16, parameter: u16) -> u16
    ensures { result ≡ flags_after flags parameter }
{
    let f = flags % 256;
    let clear = parameter / 256;
    let set = parameter % 256;
    (f & (255 - clear)) | (set & (255 - f))
}

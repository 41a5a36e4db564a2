// What is refused, by name. The numbers are those of document 01, "Numbers that refuse", in its order, and then those of
// document 02 and of the control's words.
ghost use Rattle.std.specs.Prelude.{◌≡◌};

#[derive(Clone, Copy, Debug, PartialEq, Eq)]
pub enum Refusal {
    // 1: RAM is neither 4,096 nor 65,536 words
    RamLength,
    // 2: reply buffer under 33 words
    ReplyRoom,
    // 3: RT address over 30 (31 with broadcast off), or stack size not listed
    BadSettings,
    // 4: record is not 80 bytes
    RecordLength,
    // 5: record breaks its layout
    RecordLayout,
    // 6: not own address and not 31
    OtherAddress,
    // 7: subaddress 0 or 31
    ModeSubaddress,
    // 8: stack unsound
    UnsoundStack,
    // 9: the message's cell unsound
    UnsoundCell,
    // 10: going back to a short record would lose the tag's upper half or the member number
    GoingBackLoses,
    // 11: the count of the message's cell is at its largest value
    CountFull,
    // 12: an address beyond the RAM
    AddressBeyond,
    // 15: a start address with fewer than two words left
    NoRoomToStart,
}

impl Refusal {
    ghost use Rattle.words.specs.Refusals.{number_of};

    pub fn number(self) -> u16
        ensures { result ≡ number_of self }
    {
        match self {
            Refusal::RamLength => 1,
            Refusal::ReplyRoom => 2,
            Refusal::BadSettings => 3,
            Refusal::RecordLength => 4,
            Refusal::RecordLayout => 5,
            Refusal::OtherAddress => 6,
            Refusal::ModeSubaddress => 7,
            Refusal::UnsoundStack => 8,
            Refusal::UnsoundCell => 9,
            Refusal::GoingBackLoses => 10,
            Refusal::CountFull => 11,
            Refusal::AddressBeyond => 12,
            Refusal::NoRoomToStart => 15,
        }
    }
}

impl From<Refusal> for u16 {
    ghost use Rattle.words.specs.Refusals.{number_of};

    ghost from_gives = { λ refusal number. number ≡ number_of refusal };

    fn from(refusal: Refusal) -> u16 {
        refusal.number()
    }
}

// The words that a line may begin with.
use std::str::from_utf8;

#[derive(Clone, Copy, PartialEq, Eq)]
pub(crate) enum Verb {
    // a line of spaces, or of nothing
    Blank,
    // what builds a case, and prints nothing
    Clear,
    Set,
    Lend,
    Put,
    Fill,
    From,
    Record,
    Word,
    Again,
    // what asks
    Command,
    Legal,
    Read,
    Lengths,
    Places,
    Write,
    Long,
    Block,
    Cell,
    Check,
    Message,
    Bytes,
    Part,
    Heard,
    Opcode,
    Flags,
    Outcome,
    Control,
    On,
    Ram,
    Reply,
    Order,
}

impl Verb {
    // The verb whose letters are the bytes of a number, the last one lowest; none where no verb has them.
    pub(crate) fn spelled(letters: u64) -> Option<Verb> {
        let bytes = letters.to_be_bytes();
        let name = from_utf8(&bytes).ok()?.trim_start_matches('\0');
        Verb::builder(name).or(Verb::question(name))
    }

    fn builder(name: &str) -> Option<Verb> {
        match name {
            "" => Some(Verb::Blank),
            "clear" => Some(Verb::Clear),
            "set" => Some(Verb::Set),
            "lend" => Some(Verb::Lend),
            "put" => Some(Verb::Put),
            "fill" => Some(Verb::Fill),
            "from" => Some(Verb::From),
            "record" => Some(Verb::Record),
            "word" => Some(Verb::Word),
            "again" => Some(Verb::Again),
            _ => None,
        }
    }

    fn question(name: &str) -> Option<Verb> {
        match name {
            "command" => Some(Verb::Command),
            "legal" => Some(Verb::Legal),
            "read" => Some(Verb::Read),
            "lengths" => Some(Verb::Lengths),
            "places" => Some(Verb::Places),
            "write" => Some(Verb::Write),
            "long" => Some(Verb::Long),
            "block" => Some(Verb::Block),
            "cell" => Some(Verb::Cell),
            "check" => Some(Verb::Check),
            "message" => Some(Verb::Message),
            "bytes" => Some(Verb::Bytes),
            "part" => Some(Verb::Part),
            "heard" => Some(Verb::Heard),
            "opcode" => Some(Verb::Opcode),
            "flags" => Some(Verb::Flags),
            "outcome" => Some(Verb::Outcome),
            "control" => Some(Verb::Control),
            "on" => Some(Verb::On),
            "ram" => Some(Verb::Ram),
            "reply" => Some(Verb::Reply),
            "order" => Some(Verb::Order),
            _ => None,
        }
    }
}

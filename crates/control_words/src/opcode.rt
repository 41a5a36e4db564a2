// The op code word: its parity, its fields, and the operation that it names.
ghost use Rattle.std.specs.Prelude.{◌≡◌};
ghost use Rattle.control_words.specs.OpCode.{has_odd_parity, has_pattern, operation_coded, operation_of, op_code_number};

// Each with its op code, and 0 for an unknown one. `Unknown` is no `Option` around the six, since what `operation_of`,
// `op_code_number` and `due` promise speaks of it.
#[derive(Clone, Copy, Debug, PartialEq, Eq)]
pub enum Operation {
    Execute = 0x01,
    Jump = 0x02,
    Call = 0x03,
    Return = 0x04,
    Halt = 0x07,
    Flag = 0x0C,
    Unknown = 0,
}

#[tactic(auto, using(crate::proofs::Parity::ones_below_lem), unfolding(crate::specs::OpCode::has_odd_parity))]
fn has_odd_parity(word: u16) -> bool
    ensures { result ≡ has_odd_parity word }
{
    word.count_ones() % 2 == 1
}

fn has_pattern(word: u16) -> bool
    ensures { result ≡ has_pattern word }
{
    word / 32 % 32 == 10
}

// No `From<u16>`, which would not show that the number is an op code and not the word around it.
#[tactic(auto, unfolding(crate::specs::OpCode::operation_coded))]
fn operation_coded(code: u16) -> Operation
    ensures { result ≡ operation_coded code }
{
    match code {
        0x01 => Operation::Execute,
        0x02 => Operation::Jump,
        0x03 => Operation::Call,
        0x04 => Operation::Return,
        0x07 => Operation::Halt,
        0x0C => Operation::Flag,
        _ => Operation::Unknown,
    }
}

// The operation of an op code word; unknown where the word is illegal.
#[tactic(auto, unfolding(crate::specs::OpCode::operation_of))]
pub fn operation_of(word: u16) -> Operation
    ensures { result ≡ operation_of word }
{
    if has_odd_parity(word) && has_pattern(word) {
        operation_coded(word / 1024 % 32)
    } else {
        Operation::Unknown
    }
}

// The op code of an operation, 0 for an unknown one.
pub fn op_code_number(o: Operation) -> u16
    ensures { result ≡ op_code_number o }
{
    o as u16
}

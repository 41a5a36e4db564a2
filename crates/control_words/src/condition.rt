// The condition of an op code word, from the flags and the last message.
ghost use Rattle.std.specs.Prelude.{◌≡◌, ◌<◌};
ghost use Rattle.memory.specs.Map.{bit_set};
ghost use Rattle.control_words.specs.Condition.{no_outcome, condition_holds, condition_met, is_conditional, is_due};

use crate::opcode::Operation;

// What the last message tells the conditions; all are no before the first.
#[derive(Clone, Copy, Debug, Default, PartialEq, Eq)]
pub struct Outcome {
    pub no_status: bool,
    pub other_fault: bool,
    pub good_transfer: bool,
}

#[tactic(auto, unfolding(crate::specs::Condition::no_outcome))]
pub fn no_outcome() -> Outcome
    ensures { result ≡ no_outcome }
{
    Outcome::default()
}

fn flag(flags: u16, n: u16) -> bool
    requires { n < 8 }
    ensures { result ≡ bit_set flags n }
{
    (flags >> n) % 2 == 1
}

#[tactic(auto, unfolding(crate::specs::Condition::condition_holds))]
fn condition_holds(code: u16, flags: u16, last: Outcome) -> bool
    ensures { result ≡ condition_holds code flags last }
{
    match code {
        0..=7 => flag(flags, code),
        0x8 => last.no_status,
        0x9 => last.other_fault,
        0xA => last.good_transfer,
        0xC => last.no_status || last.other_fault,
        0xF => true,
        _ => false,
    }
}

#[tactic(auto, unfolding(crate::specs::Condition::condition_met))]
fn condition_met(word: u16, flags: u16, last: Outcome) -> bool
    ensures { result ≡ condition_met word flags last }
{
    let holds = condition_holds(word % 16, flags, last);
    if word / 16 % 2 == 1 { !holds } else { holds }
}

fn is_conditional(o: Operation) -> bool
    ensures { result ≡ is_conditional o }
{
    !matches!(o, Operation::Flag | Operation::Unknown)
}

// Whether an instruction is executed, or else passed over.
#[tactic(auto, unfolding(crate::specs::Condition::is_due))]
pub fn due(o: Operation, word: u16, flags: u16, last: Outcome) -> bool
    ensures { result ≡ is_due o word flags last }
{
    !is_conditional(o) || condition_met(word, flags, last)
}

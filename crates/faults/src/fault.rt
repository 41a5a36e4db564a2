// Rule 1: the faults of a message.
ghost use Rattle.std.specs.Prelude.{◌≡◌};
ghost use Rattle.faults.specs.Fault.{expected_words, told_fault, faults_of, faults_for, any_fault};

use records::transfer::{bad_second, no_status, transfer_fails, wrong_gap};
use records::value::{Record, invalid_word, wrong_sync};
use words::command;

#[derive(Clone, Copy, Debug, PartialEq, Eq)]
pub struct Faults {
    pub sync: bool,
    pub invalid: bool,
    pub count: bool,
    pub contents: bool,
    // of a transfer: the transmitter gave no status, a wrong gap, sync or address in it, or the second command is bad
    pub no_status: bool,
    pub gap: bool,
    pub second: bool,
}

#[tactic(auto, unfolding(crate::specs::Fault::expected_words))]
pub fn expected_words(command: u16) -> u16
    ensures { result ≡ expected_words command }
{
    if command::transmit(command) {
        0
    } else {
        command::word_count(command)
    }
}

// Whether a flag tells a fault.
pub fn told_fault(v: Record) -> bool
    ensures { result ≡ told_fault v }
{
    wrong_sync(v) || invalid_word(v) || transfer_fails(v)
}

// The caller says how many words are expected, and whether the contents are at fault.
#[tactic(auto, unfolding(crate::specs::Fault::faults_of))]
pub fn faults_of(expected: u16, contents: bool, v: Record) -> Faults
    ensures { result ≡ faults_of expected contents v }
{
    Faults {
        sync: wrong_sync(v),
        invalid: invalid_word(v),
        count: u16::from(v.count) != expected && !told_fault(v),
        contents,
        no_status: no_status(v),
        gap: wrong_gap(v),
        second: bad_second(v),
    }
}

#[tactic(auto, unfolding(crate::specs::Fault::faults_for))]
pub fn faults_for(broadcast: bool, v: Record) -> Faults
    ensures { result ≡ faults_for broadcast v }
{
    faults_of(
        expected_words(v.command),
        broadcast && command::transmit(v.command),
        v,
    )
}

// Whether a message has any fault, from its record as it stands: a flag tells one, the count is wrong, or the contents
// are.
#[tactic(auto, using(crate::proofs::Parts::fault_parts))]
pub fn at_fault(broadcast: bool, v: Record) -> bool
    ensures { result ≡ any_fault (faults_for broadcast v) }
{
    let miscounted = u16::from(v.count) != expected_words(v.command);
    let contents = broadcast && command::transmit(v.command);
    told_fault(v) || miscounted || contents
}

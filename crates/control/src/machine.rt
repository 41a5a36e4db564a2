// The machine, by value, what a step leaves of it, and how a run ends.
ghost use Rattle.std.specs.Prelude.{◌≡◌};
ghost use Rattle.control.specs.Machine.{machine_at, standing, going_on, is_going, is_carried_out, refusal_in, end_kind};

use control_words::condition::Outcome;

// The addresses to return to, the first `depth` of them in use. No type holds the two together, since `go_on` takes any
// machine, also one whose depth is over four.
pub type Calls = [usize; 4];

#[derive(Clone, Copy, Debug, Default, PartialEq, Eq)]
pub struct Machine {
    pub pointer: usize,
    pub flags: u16,
    pub last: Outcome,
    pub depth: usize,
    pub calls: Calls,
    // the trace's place, in bytes
    pub place: usize,
}

// How a run ends. One that goes on is ended by its budget alone.
#[derive(Clone, Copy, Debug, PartialEq, Eq)]
pub enum End {
    Budget,
    Halt,
    Bad,
    NoOutcome,
    Refused(u16),
}

// What a step leaves.
#[derive(Clone, Copy, Debug, PartialEq, Eq)]
pub struct Stand {
    pub end: End,
    pub machine: Machine,
}

impl Machine {
    pub(crate) fn ends(self, end: End) -> Stand
        ensures { result ≡ standing end self }
    {
        Stand { end, machine: self }
    }

    pub(crate) fn goes_on(self) -> Stand
        ensures { result ≡ going_on self }
    {
        self.ends(End::Budget)
    }
}

#[tactic(auto, unfolding(crate::specs::Machine::machine_at, control_words::specs::Condition::no_outcome))]
pub fn machine_at(start: usize, flags: u16) -> Machine
    ensures { result ≡ machine_at start flags }
{
    Machine {
        pointer: start,
        flags,
        ..Machine::default()
    }
}

pub fn is_going(end: End) -> bool
    ensures { result ≡ is_going end }
{
    matches!(end, End::Budget)
}

pub fn is_carried_out(end: End) -> bool
    ensures { result ≡ is_carried_out end }
{
    matches!(end, End::Budget | End::Halt)
}

// The number that refuses, or 0.
pub fn refusal_in(end: End) -> u16
    ensures { result ≡ refusal_in end }
{
    if let End::Refused(number) = end {
        number
    } else {
        0
    }
}

// The kind of end, or 0 for a refusal.
pub fn end_kind(end: End) -> u16
    ensures { result ≡ end_kind end }
{
    match end {
        End::Halt => 1,
        End::Bad => 2,
        End::NoOutcome => 3,
        End::Budget => 4,
        End::Refused(_) => 0,
    }
}

// An instruction that was fetched, and what it does.
ghost use Rattle.std.specs.Prelude.{◌≡◌, ◌+◌, ◌<◌};
ghost use Rattle.control.specs.Step.{is_outcome};

use crate::machine::{End, Machine, Stand};
use control_words::condition::due;
use control_words::flags::flags_after;
use control_words::opcode::{Operation, operation_of};
use control_words::outcome::outcome_shown;
use trace_view::view::{Taken, take_at};

// The two words of an instruction, and the machine that stands at it.
#[derive(Clone, Copy)]
pub(crate) struct Fetched {
    pub machine: Machine,
    pub word: u16,
    pub parameter: u16,
    // It lies in RAM, so there is a place behind it.
    pub ghost next_fits: { machine.pointer + 2 < 18446744073709551616 },
}

fn is_outcome(t: Taken) -> bool
    ensures { result ≡ is_outcome t }
{
    t.found && t.reading.number == 0
}

impl Fetched {
    ghost use Rattle.control.specs.Machine.{next_pair, moved_on, flagged_by};
    ghost use Rattle.control.specs.Step.{executed, called, returned, performed, carried_out};

    // The place of the next pair.
    fn next(self) -> usize
        ensures { result ≡ next_pair self.machine }
    {
        self.machine.pointer + 2
    }

    #[tactic(auto, unfolding(crate::specs::Machine::moved_on, crate::specs::Machine::moved_to))]
    fn moved_on(self) -> Machine
        ensures { result ≡ moved_on self.machine }
    {
        Machine {
            pointer: self.next(),
            ..self.machine
        }
    }

    #[tactic(auto, unfolding(crate::specs::Step::executed, crate::specs::Machine::heard_of))]
    fn execute(self, trace: &[u8]) -> Stand
        ensures { result ≡ executed trace.now self.machine }
    {
        let taken = take_at(trace, self.machine.place);
        if !is_outcome(taken) {
            return self.machine.ends(End::NoOutcome);
        }
        let after = Machine {
            pointer: self.next(),
            last: outcome_shown(taken.reading.value),
            place: taken.at,
            ..self.machine
        };
        after.goes_on()
    }

    #[tactic(auto, unfolding(crate::specs::Step::called, crate::specs::Machine::called_to))]
    fn call(self) -> Stand
        ensures { result ≡ called self.machine self.parameter }
    {
        let m = self.machine;
        if 4 <= m.depth {
            return m.ends(End::Bad);
        }
        let mut calls = m.calls;
        calls[m.depth] = self.next();
        let after = Machine {
            pointer: usize::from(self.parameter),
            depth: m.depth + 1,
            calls,
            ..m
        };
        after.goes_on()
    }

    #[tactic(auto, unfolding(crate::specs::Step::returned, crate::specs::Machine::returned_from))]
    fn return_from(self) -> Stand
        ensures { result ≡ returned self.machine }
    {
        let m = self.machine;
        let Some(depth) = m.depth.checked_sub(1) else {
            return m.ends(End::Bad);
        };
        let after = Machine {
            pointer: m.calls.get(depth).copied().unwrap_or(0),
            depth,
            ..m
        };
        after.goes_on()
    }

    #[tactic(auto, unfolding(crate::specs::Machine::flagged_by))]
    fn set_flags(self) -> Machine
        ensures { result ≡ flagged_by self.machine self.parameter }
    {
        Machine {
            pointer: self.next(),
            flags: flags_after(self.machine.flags, self.parameter),
            ..self.machine
        }
    }

    #[tactic(auto, unfolding(crate::specs::Machine::moved_to))]
    fn perform(self, trace: &[u8], o: Operation) -> Stand
        ensures { result ≡ performed trace.now self.machine o self.parameter }
    {
        match o {
            Operation::Execute => self.execute(trace),
            Operation::Jump => {
                let after = Machine {
                    pointer: usize::from(self.parameter),
                    ..self.machine
                };
                after.goes_on()
            }
            Operation::Call => self.call(),
            Operation::Return => self.return_from(),
            Operation::Halt => self.moved_on().ends(End::Halt),
            Operation::Flag => self.set_flags().goes_on(),
            Operation::Unknown => self.machine.ends(End::Bad),
        }
    }

    #[tactic(auto, unfolding(crate::specs::Step::carried_out))]
    pub(crate) fn carry_out(self, trace: &[u8]) -> Stand
        ensures { result ≡ carried_out trace.now self.machine self.word self.parameter }
    {
        let m = self.machine;
        let o = operation_of(self.word);
        if due(o, self.word, m.flags, m.last) {
            self.perform(trace, o)
        } else {
            self.moved_on().goes_on()
        }
    }
}

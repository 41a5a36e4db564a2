// Rules 3 and 4: the words stored or sent.
ghost use Rattle.std.specs.Prelude.{◌≡◌};
ghost use Rattle.plan.specs.Act.{withheld, words_stored, words_sent, act_with, act_of};

use faults::fault::{Faults, at_fault, faults_for};
use lookup::target::Target;
use records::value::Record;
use words::command;
use words::settings::Settings;

// The faults, and how many words are stored or sent: k of them.
#[derive(Clone, Copy)]
pub struct Act {
    pub faults: Faults,
    pub valid: bool,
    pub stored: u16,
    pub sent: u16,
    pub k: u16,
}

#[tactic(auto, unfolding(crate::specs::Act::withheld))]
fn is_withheld(s: Settings, t: Target) -> bool
    ensures { result ≡ withheld s t }
{
    (t.illegal && s.illegal_receive_disable) || (t.busy && s.busy_receive_disable)
}

#[tactic(auto, unfolding(crate::specs::Act::words_stored))]
fn words_stored(s: Settings, t: Target, v: Record) -> u16
    ensures { result ≡ words_stored s t v }
{
    if command::transmit(v.command) || is_withheld(s, t) {
        return 0;
    }
    u16::from(v.count).min(command::word_count(v.command))
}

#[tactic(auto, unfolding(crate::specs::Act::words_sent))]
fn words_sent(t: Target, valid: bool, command: u16) -> u16
    ensures { result ≡ words_sent t valid command }
{
    if command::transmit(command) && valid && !t.illegal && !t.busy {
        command::word_count(command)
    } else {
        0
    }
}

#[tactic(auto, unfolding(crate::specs::Act::act_with))]
fn act_with(s: Settings, t: Target, v: Record, faults: Faults, valid: bool) -> Act
    ensures { result ≡ act_with s t v faults valid }
{
    let stored = words_stored(s, t, v);
    let sent = words_sent(t, valid, v.command);
    Act {
        faults,
        valid,
        stored,
        sent,
        k: if command::transmit(v.command) {
            sent
        } else {
            stored
        },
    }
}

#[tactic(auto, unfolding(crate::specs::Act::act_of))]
pub fn act_of(s: Settings, t: Target, v: Record) -> Act
    ensures { result ≡ act_of s t v }
{
    let valid = !at_fault(t.broadcast, v);
    let faults = faults_for(t.broadcast, v);
    act_with(s, t, v, faults, valid)
}

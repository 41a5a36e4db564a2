// The deed of an accepted message: what it does in its cell, and what it reports but for the stack.
ghost use Rattle.std.specs.Prelude.{◌≡◌, not};
ghost use Rattle.faults.specs.Fault.{any_fault};
ghost use Rattle.plan.specs.Clean.{is_unclean, clean_act};
ghost use Rattle.plan.specs.Deed.{deed_with, deed_of};

use crate::act::{Act, act_of};
use crate::motion::{Motion, motion_of};
use crate::report::{block_status, status_word};
use faults::fault::{Faults, expected_words};
use lookup::target::Target;
use records::transfer::is_transfer;
use records::value::{Record, bus_b};
use windows::window::Window;
use words::command;
use words::settings::Settings;

// What the interrupt word tells of the message itself.
#[derive(Clone, Copy, Debug, PartialEq, Eq)]
pub struct Signals {
    pub illegal: bool,
    pub rollover: bool,
    pub fault: bool,
    pub end: bool,
}

#[derive(Clone, Copy, Debug, PartialEq, Eq)]
pub struct Deed {
    // the number of the cell, and the window from whose pointer on words are stored or sent
    pub cell: u16,
    pub window: Window,
    pub stored: u16,
    pub sent: u16,
    // the lookup pointer before the message, whether it moves, and where it stands then
    pub before: u16,
    pub moves: bool,
    pub after: u16,
    pub block_status: u16,
    // the descriptor's third word: the lookup pointer before the message
    pub third: u16,
    pub status: u16,
    // whether the status is sent: RT 0's clean status is 0000, so "none" has a mark of its own
    pub answered: bool,
    // whether the one word behind the status is the third word, and not the window's
    pub sends_third: bool,
    pub signals: Signals,
}

// The signals are made in place: the compiler would pack a struct of four bytes that is copied.
#[tactic(auto, unfolding(crate::specs::Deed::signals_of, crate::specs::Deed::deed_with))]
fn deed_with(s: Settings, t: Target, v: Record, a: Act, m: Motion) -> Deed
    requires { a.valid ≡ not (any_fault a.faults) }
    ensures { result ≡ deed_with s t v a m }
{
    let c = t.cell;
    let fault = !a.valid;
    Deed {
        cell: t.number,
        window: t.window,
        stored: a.stored,
        sent: a.sent,
        before: c.pointer,
        moves: m.moves,
        after: m.after,
        block_status: block_status(
            bus_b(v),
            is_transfer(v),
            a.faults,
            fault,
            m.rollover,
            t.illegal,
        ),
        third: c.pointer,
        status: status_word(s, t, a.valid),
        answered: a.valid && !t.broadcast,
        sends_third: false,
        signals: Signals {
            illegal: t.illegal,
            rollover: m.rollover && c.circular_interrupt,
            fault,
            end: c.end_interrupt,
        },
    }
}

// What makes a message other than clean: illegal, busy, broadcast, any flag but the bus, a wrong count. Asked of plain
// values, so that the compiler need not take target and record apart.
#[tactic(auto, unfolding(crate::specs::Clean::is_unclean))]
fn is_unclean(illegal: bool, busy: bool, broadcast: bool, flags: u8, miscounted: bool) -> bool
    ensures { result ≡ is_unclean illegal busy broadcast flags miscounted }
{
    illegal || busy || broadcast || 2 <= flags || miscounted
}

// The act of a clean message: no fault, and all its words stored or sent.
#[tactic(auto, unfolding(crate::specs::Clean::clean_act))]
fn clean_act(command: u16) -> Act
    ensures { result ≡ clean_act command }
{
    let transmits = command::transmit(command);
    let n = command::word_count(command);
    Act {
        faults: Faults {
            sync: false,
            invalid: false,
            count: false,
            contents: false,
            no_status: false,
            gap: false,
            second: false,
        },
        valid: true,
        stored: if transmits { 0 } else { n },
        sent: if transmits { n } else { 0 },
        k: n,
    }
}

// Most messages are clean: for them the compiler has a way of its own through all that follows.
#[tactic(auto, using(crate::proofs::Clean::not_unclean), unfolding(crate::specs::Deed::deed_of, crate::specs::Act::act_of, crate::specs::Act::act_with, crate::specs::Clean::clean_act, faults::specs::Fault::any_fault))]
pub fn deed_of(s: Settings, t: Target, v: Record) -> Deed
    ensures { result ≡ deed_of s t v }
{
    let miscounted = u16::from(v.count) != expected_words(v.command);
    if !is_unclean(t.illegal, t.busy, t.broadcast, v.flags, miscounted) {
        let a = clean_act(v.command);
        let m = motion_of(s, t, a);
        return deed_with(s, t, v, a, m);
    }
    let a = act_of(s, t, v);
    let m = motion_of(s, t, a);
    deed_with(s, t, v, a, m)
}

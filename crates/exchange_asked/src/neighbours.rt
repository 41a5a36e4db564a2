// What demand 3 asks of a message, and of two that are neighbours.
ghost use Rattle.std.specs.Prelude.{◌≡◌};
ghost use Rattle.message.specs.Heard.{heard_value};
ghost use Rattle.exchange.specs.Condition.{well_formed, may_exchange};

use lookup::target::target_of;
use records::value::{Record, keeps_layout};
use windows::window::windows_meet;
use words::command::{mode_subaddress, transmit};
use words::settings::{Settings, is_not_ours};

// A well-formed data message for this terminal: where the whole-area check passes and there is room for the reply, it
// is not refused.
#[tactic(auto, unfolding(exchange::specs::Condition::well_formed))]
pub fn well_formed(s: Settings, v: Record) -> bool
    ensures { result ≡ well_formed s (heard_value v) }
{
    keeps_layout(v) && !is_not_ours(s, v.command) && !mode_subaddress(v.command)
}

// Two messages that are neighbours may change places: their cells differ, and their windows don't meet or both only
// send.
#[tactic(auto, unfolding(exchange::specs::Condition::may_exchange))]
pub fn may_exchange(ram: &[u16], s: Settings, a: Record, b: Record) -> bool
    ensures { result ≡ may_exchange ram.now s a b }
{
    let t = target_of(ram, s, a.command);
    let u = target_of(ram, s, b.command);
    t.number != u.number
        && (!windows_meet(t.window, u.window) || (transmit(a.command) && transmit(b.command)))
}

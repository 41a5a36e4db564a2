// Rule 5: where the cell's pointer goes.
ghost use Rattle.std.specs.Prelude.{◌≡◌};
ghost use Rattle.plan.specs.Motion.{pointer_to, motion_of};

use crate::act::Act;
use cells::cell::Scheme;
use lookup::target::Target;
use windows::window::{place, rolls_over};
use words::settings::Settings;

// Where the cell's pointer goes.
#[derive(Clone, Copy, Debug, PartialEq, Eq)]
pub struct Motion {
    pub moves: bool,
    pub after: u16,
    pub rollover: bool,
}

// A pointer is a word of RAM, of 16 bits; a place of a sound cell's window is one.
pub(crate) fn pointer_to(place: usize) -> u16
    ensures { result ≡ pointer_to place }
{
    (place % 65536) as u16
}

// One way for each scheme, so that a single cell works out nothing.
#[tactic(auto, unfolding(crate::specs::Motion::motion_of, crate::specs::Motion::motion_with, crate::specs::Motion::moves, crate::specs::Motion::may_move, crate::specs::Motion::stride))]
pub fn motion_of(s: Settings, t: Target, a: Act) -> Motion
    ensures { result ≡ motion_of s t a }
{
    let c = t.cell;
    let w = t.window;
    match c.scheme {
        Scheme::Single => Motion {
            moves: false,
            after: c.pointer,
            rollover: false,
        },
        Scheme::Double => {
            let moved = a.valid && 0 < a.k;
            let next = pointer_to(place(w, 32));
            Motion {
                moves: moved,
                after: if moved { next } else { c.pointer },
                rollover: false,
            }
        }
        Scheme::Circular(_) => {
            let moved = (a.valid || !s.overwrite_invalid) && 0 < a.k;
            let next = pointer_to(place(w, a.k));
            Motion {
                moves: moved,
                after: if moved { next } else { c.pointer },
                rollover: moved && rolls_over(w, a.k),
            }
        }
    }
}

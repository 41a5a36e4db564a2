// Where the question about one address stands between two parts of a trace.
ghost use Rattle.std.specs.Prelude.{◌≡◌};
ghost use Rattle.who.specs.Replay.{beginning};

use who_origin::origin::Who;
use words::remembered::{Remembered, nothing_remembered};

// What stands between two parts of a trace, beside RAM: what is remembered, the number of the last record, and the
// answer so far.
#[derive(Clone, Copy, Debug, PartialEq, Eq)]
pub struct Standing {
    pub remembered: Remembered,
    pub number: u64,
    pub who: Who,
}

// Before the first record.
#[tactic(auto, unfolding(crate::specs::Replay::beginning))]
pub fn begin() -> Standing
    ensures { result ≡ beginning }
{
    Standing {
        remembered: nothing_remembered(),
        number: 0,
        who: Who::AsInImage,
    }
}

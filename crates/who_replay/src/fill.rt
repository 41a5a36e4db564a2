// The answer for every address at once: lent tables filled as a trace is replayed.
ghost use Rattle.std.specs.Prelude.{◌≡◌};
ghost use Rattle.message.specs.Heard.{heard_bytes};
ghost use Rattle.who.specs.Replay.{heard_in};
ghost use Rattle.who_tables.specs.Table.{tables_of, fill_record, fill_all, refusal_of, filled_with};

use crate::taken::take_record;
use message::perform::Performed;
use who_tables::table::{Filling, mark_plan};
use who_tables::tests::fill_refusal;
use words::settings::Settings;
use words::sizes::RECORD_BYTES;

// The number that refuses, or 0, and where the replay stands.
#[derive(Clone, Copy, Debug, PartialEq, Eq)]
pub struct Filled {
    pub number: u16,
    pub at: Filling,
}

// One record more.
#[tactic(auto, using(crate::proofs::Filling::fill_refused, crate::proofs::Filling::fill_done))]
fn fill_record(
    ram: &mut [u16],
    numbers: &mut [u64],
    marks: &mut [u16],
    s: Settings,
    at: Filling,
    bytes: &[u8],
) -> Filling
    ensures { tables_of ram.new numbers.new marks.new result ≡ fill_record s (heard_bytes bytes.now) (tables_of ram.old numbers.old marks.old at) }
{
    let number = at.number.wrapping_add(1);
    match take_record(ram, s, at.remembered, bytes) {
        Performed::Refused(_) => Filling { number, ..at },
        Performed::Done(plan) => {
            mark_plan(numbers, marks, s, plan, number);
            Filling {
                remembered: plan.remembered,
                number,
            }
        }
    }
}

// All whole records of a part of a trace.
fn fill_all(
    ram: &mut [u16],
    numbers: &mut [u64],
    marks: &mut [u16],
    s: Settings,
    at: Filling,
    trace: &[u8],
) -> Filling
    ensures { tables_of ram.new numbers.new marks.new result ≡ fill_all s (heard_in trace.now) (tables_of ram.old numbers.old marks.old at) }
{
    let mut w = at;
    for bytes in trace.chunks_exact(RECORD_BYTES) {
        w = fill_record(ram, numbers, marks, s, w, bytes);
    }
    w
}

// A part of a trace: RAM is replayed where it is lent, and the tables go on from what they hold, all zero at first. A
// table that is not as long as RAM is refused with 1. A refusal changes nothing, and nothing remembers it: the next part
// goes on as if the refused one had never been lent.
#[tactic(auto, unfolding(who_tables::specs::Table::filled_with))]
pub fn fill(
    ram: &mut [u16],
    numbers: &mut [u64],
    marks: &mut [u16],
    s: Settings,
    at: Filling,
    trace: &[u8],
) -> Filled
    ensures number { result.number ≡ refusal_of s (tables_of ram.old numbers.old marks.old at) }
    ensures tables { tables_of ram.new numbers.new marks.new result.at ≡ filled_with s (heard_in trace.now) (tables_of ram.old numbers.old marks.old at) }
{
    let number = fill_refusal(ram.len(), numbers.len(), marks.len(), s);
    if number != 0 {
        return Filled { number, at };
    }
    let end = fill_all(ram, numbers, marks, s, at, trace);
    Filled { number: 0, at: end }
}

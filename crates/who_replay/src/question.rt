// The question about one address, asked of a trace as it is replayed.
ghost use Rattle.std.specs.Prelude.{◌≡◌};
ghost use Rattle.message.specs.Heard.{heard_bytes};
ghost use Rattle.who.specs.Replay.{heard_in, replay_of, replay_record, replay, gone_on, asked};

use crate::taken::take_record;
use message::perform::Performed;
use who::standing::{Standing, begin};
use who::tests::who_refusal;
use who::values::values_of;
use who_origin::origin::{Who, who_wrote};
use words::settings::Settings;
use words::sizes::RECORD_BYTES;

// One record more.
#[tactic(auto, using(crate::proofs::Recorded::replay_refused, crate::proofs::Recorded::replay_done))]
fn replay_record(ram: &mut [u16], s: Settings, address: u16, at: Standing, bytes: &[u8]) -> Standing
    ensures { replay_of ram.new result ≡ replay_record s address (heard_bytes bytes.now) (replay_of ram.old at) }
{
    let number = at.number.wrapping_add(1);
    match take_record(ram, s, at.remembered, bytes) {
        Performed::Refused(_) => Standing { number, ..at },
        Performed::Done(plan) => Standing {
            remembered: plan.remembered,
            number,
            who: who_wrote(s, plan, address, number, at.who),
        },
    }
}

// All whole records of a part of a trace.
fn replay_all(ram: &mut [u16], s: Settings, address: u16, at: Standing, trace: &[u8]) -> Standing
    ensures { replay_of ram.new result ≡ replay s address (heard_in trace.now) (replay_of ram.old at) }
{
    let mut w = at;
    for bytes in trace.chunks_exact(RECORD_BYTES) {
        w = replay_record(ram, s, address, w, bytes);
    }
    w
}

// A part of a trace: RAM is replayed where it is lent, and the answer so far goes on. A refusal is the answer, and
// changes nothing else; an answer that is a refusal already is handed back as it is, before anything is tested.
#[tactic(auto, unfolding(who::specs::Replay::gone_on, who::specs::Replay::refused_at))]
pub fn go_on(ram: &mut [u16], s: Settings, address: u16, at: Standing, trace: &[u8]) -> Standing
    ensures { replay_of ram.new result ≡ gone_on s address (heard_in trace.now) (replay_of ram.old at) }
{
    if values_of(at.who).number != 0 {
        return at;
    }
    let number = who_refusal(ram.len(), s, address);
    if number != 0 {
        return Standing {
            who: Who::Refused(number),
            ..at
        };
    }
    replay_all(ram, s, address, at, trace)
}

// A whole trace. RAM holds the image, and afterwards what the trace leaves.
#[tactic(auto, unfolding(who::specs::Replay::asked))]
pub fn ask(ram: &mut [u16], s: Settings, address: u16, trace: &[u8]) -> Who
    ensures who { result ≡ (asked s address (heard_in trace.now) ram.old).at.who }
    ensures ram { ram.new ≡ (asked s address (heard_in trace.now) ram.old).ram }
{
    go_on(ram, s, address, begin(), trace).who
}

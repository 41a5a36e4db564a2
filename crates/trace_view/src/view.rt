// A view that holds the caller's trace and a place in it. `next` takes it apart and calls `take_at` on the slice and
// the number.
ghost use Rattle.std.specs.Prelude.{◌≡◌, ◌<◌, ◌≤◌, ◌+◌, length, take, drop, MatchOption};
ghost use Rattle.trace_view.specs.View.{none_at, taken_at};

use layout::reader::{Reading, read};
use records::value::zero_value;
use words::sizes::RECORD_BYTES;

#[derive(Clone, Copy, Debug, PartialEq, Eq)]
pub struct View<'a> {
    pub trace: &'a [u8],
    pub at: usize,
}

// What taking a record gives: whether there was one, the place after it, and what it reads as.
#[derive(Clone, Copy, Debug, PartialEq, Eq)]
pub struct Taken {
    pub found: bool,
    pub at: usize,
    pub reading: Reading,
}

// None, and the place stays.
#[tactic(auto, unfolding(crate::specs::View::none_at, layout::specs::Layout::not_read))]
fn none_at(at: usize) -> Taken
    ensures { result ≡ none_at at }
{
    let value = zero_value();
    let reading = Reading { number: 0, value };
    Taken {
        found: false,
        at,
        reading,
    }
}

// The 80 bytes at a place, which may lie beyond the end.
fn bytes_at(trace: &[u8], at: usize) -> Option<&[u8]>
    ensures { MatchOption result (length trace.now < at + 80) (λ bytes. (at + 80 ≤ length trace.now) × (bytes.now ≡ take 80 (drop at trace.now))) }
{
    let end = at.checked_add(RECORD_BYTES)?;
    trace.get(at..end)
}

// The work: the record at a place of a slice.
#[tactic(auto, using(crate::proofs::Views::taken_none, crate::proofs::Views::taken_some))]
pub fn take_at(trace: &[u8], at: usize) -> Taken
    ensures { result ≡ taken_at trace.now at }
{
    let Some(bytes) = bytes_at(trace, at) else {
        return none_at(at);
    };
    Taken {
        found: true,
        at: at + RECORD_BYTES,
        reading: read(bytes),
    }
}

pub fn view_of<'a>(trace: &'a [u8]) -> View<'a>
    ensures { (result.trace ≡ trace.entry) × (result.at ≡ 0) }
{
    View { trace, at: 0 }
}

pub fn next<'a>(v: View<'a>) -> Taken
    ensures { result ≡ taken_at v.entry.trace.now v.entry.at }
{
    take_at(v.trace, v.at)
}

pub fn moved<'a>(v: View<'a>, at: usize) -> View<'a>
    ensures { (result.trace ≡ v.entry.trace) × (result.at ≡ at) }
{
    View { at, ..v }
}

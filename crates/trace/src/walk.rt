// Walking a trace: each whole record to the terminal, each answer to a line.
ghost use Rattle.std.specs.Prelude.{◌≡◌};
ghost use Rattle.std.proofs.lemmas.List.Edits.{sets};
ghost use Rattle.trace.specs.Walk.{Leaves, walk_start, walk_record, walk_all, walked_of};

use message::serve::message_from_bytes;
use text::table::HexTable;
use text::text::Text;
use words::remembered::Remembered;
use words::settings::Settings;
use words::sizes::RECORD_BYTES;

// What walking hands back: the remembered state, the last record's number, and how much text stands in the buffer.
#[derive(Clone, Copy, Debug, PartialEq, Eq)]
pub struct Walked {
    pub remembered: Remembered,
    pub number: u64,
    pub used: usize,
}

// One record: its place after the text so far, then to the terminal, and its answer's columns.
fn walk_one(
    ram: &mut [u16],
    reply: &mut [u16],
    out: &mut [u8],
    s: Settings,
    w: Walked,
    bytes: &[u8],
    table: &HexTable,
) -> Walked
    ensures { Leaves (walk_record s bytes.now (walk_start ram.old reply.old w.remembered w.number)) out.old w.used ram.new reply.new out.new result }
{
    let number = w.number.wrapping_add(1);
    let mut text = Text { out, at: w.used };
    text.put_decimal(number);
    let outcome = message_from_bytes(ram, reply, s, w.remembered, bytes);
    text.put_columns(outcome.answer, table);
    Walked {
        remembered: outcome.remembered,
        number,
        used: text.at,
    }
}

// All whole records, with a table of hexadecimal digits. The record at the current place is handed on from the middle of
// what was read.
fn walk_records(
    ram: &mut [u16],
    reply: &mut [u16],
    out: &mut [u8],
    s: Settings,
    before: Remembered,
    number: u64,
    trace: &[u8],
    table: &HexTable,
) -> Walked
    ensures back { result ≡ walked_of (walk_all s trace.now (walk_start ram.old reply.old before number)) }
    ensures ram { ram.new ≡ (walk_all s trace.now (walk_start ram.old reply.old before number)).state.ram }
    ensures reply { reply.new ≡ (walk_all s trace.now (walk_start ram.old reply.old before number)).state.reply }
    ensures out { out.new ≡ sets out.old 0 (walk_all s trace.now (walk_start ram.old reply.old before number)).text }
{
    let mut w = Walked {
        remembered: before,
        number,
        used: 0,
    };
    for bytes in trace.chunks_exact(RECORD_BYTES) {
        w = walk_one(ram, reply, out, s, w, bytes, table);
    }
    w
}

// All whole records of the trace.
pub fn walk(
    ram: &mut [u16],
    reply: &mut [u16],
    out: &mut [u8],
    s: Settings,
    before: Remembered,
    number: u64,
    trace: &[u8],
) -> Walked
    ensures back { result ≡ walked_of (walk_all s trace.now (walk_start ram.old reply.old before number)) }
    ensures ram { ram.new ≡ (walk_all s trace.now (walk_start ram.old reply.old before number)).state.ram }
    ensures reply { reply.new ≡ (walk_all s trace.now (walk_start ram.old reply.old before number)).state.reply }
    ensures out { out.new ≡ sets out.old 0 (walk_all s trace.now (walk_start ram.old reply.old before number)).text }
{
    let table = HexTable::new();
    walk_records(ram, reply, out, s, before, number, trace, &table)
}

// Who put a word where it is, for callers: tables for every address that go on with each part of a trace, what they say
// of an address, and the question about one address.
ghost use Rattle.std.specs.Prelude.{◌≡◌, [], ◌∷◌};
ghost use Rattle.who.specs.Replay.{heard_in, asked};
ghost use Rattle.who_tables.specs.Table.{entry_at, refusal_of};
ghost use Rattle.who.specs.Values.{values_of};
ghost use Rattle.c_words.specs.Over.{over};
ghost use Rattle.c_words.specs.Setup.{settings_from, remembered_words};
ghost use Rattle.c_who.specs.Origins.{part_words, filling_from, lent_tables_of, tables_in, tables_after};

use c_words::setup::{put_remembered, remembered_from, settings_from};
use memory::ram::put;
use who::values::{Values, values_of};
use who_origin::origin::Who;
use who_replay::fill::fill;
use who_replay::question::ask;
use who_tables::table::{Filling, entry_at, number_at, put_number};

fn put_part(xs: &mut [u16], v: Values)
    ensures { xs.new ≡ over xs.old (part_words v) }
{
    put(xs, 2, v.place);
    put(xs, 1, v.cell);
    put(xs, 0, v.kind);
}

// An answer's values put over what is lent; the number that refuses is the result.
fn tell(last: &mut [u64], part: &mut [u16], w: Who) -> u16
    ensures number { result ≡ (values_of w).number }
    ensures last { last.new ≡ over last.old ((values_of w).last ∷ []) }
    ensures part { part.new ≡ over part.old (part_words (values_of w)) }
{
    let v = values_of(w);
    put_number(last, 0, v.last);
    put_part(part, v);
    v.number
}

#[tactic(auto, unfolding(crate::specs::Origins::filling_from))]
fn filling_from(remembered: &[u16], records: &[u64]) -> Filling
    ensures { result ≡ filling_from remembered.now records.now }
{
    Filling {
        remembered: remembered_from(remembered),
        number: number_at(records, 0),
    }
}

fn put_filling(remembered: &mut [u16], records: &mut [u64], at: Filling)
    ensures remembered { remembered.new ≡ over remembered.old (remembered_words at.remembered) }
    ensures records { records.new ≡ over records.old (at.number ∷ []) }
{
    put_remembered(remembered, at.remembered);
    put_number(records, 0, at.number);
}

// A part of a trace, for every address at once. RAM is replayed where it is lent, and the tables go on from what they
// hold. Every call tests what it is given, and nothing remembers a refusal.
#[unsafe(no_mangle)]
pub extern "C" fn solkverva_who_fill(
    ram: &mut [u16],
    numbers: &mut [u64],
    marks: &mut [u16],
    settings: &[u16],
    remembered: &mut [u16],
    records: &mut [u64],
    trace: &[u8],
) -> u16
    ensures number { result ≡ refusal_of (settings_from settings.now) (tables_in (lent_tables_of ram.old numbers.old marks.old remembered.old records.old)) }
    ensures lent { lent_tables_of ram.new numbers.new marks.new remembered.new records.new ≡ tables_after (settings_from settings.now) (heard_in trace.now) (lent_tables_of ram.old numbers.old marks.old remembered.old records.old) }
{
    let s = settings_from(settings);
    let at = filling_from(remembered, records);
    let filled = fill(ram, numbers, marks, s, at, trace);
    if filled.number != 0 {
        return filled.number;
    }
    put_filling(remembered, records, filled.at);
    0
}

// What filled tables say of an address.
#[unsafe(no_mangle)]
pub extern "C" fn solkverva_who_entry(
    numbers: &[u64],
    marks: &[u16],
    address: u16,
    last: &mut [u64],
    part: &mut [u16],
) -> u16
    ensures number { result ≡ (values_of (entry_at numbers.now marks.now address)).number }
    ensures last { last.new ≡ over last.old ((values_of (entry_at numbers.now marks.now address)).last ∷ []) }
    ensures part { part.new ≡ over part.old (part_words (values_of (entry_at numbers.now marks.now address))) }
{
    let w = entry_at(numbers, marks, address);
    tell(last, part, w)
}

// The question about one address, of a whole trace. RAM holds the image, and afterwards what the trace leaves.
#[unsafe(no_mangle)]
pub extern "C" fn solkverva_who(
    ram: &mut [u16],
    settings: &[u16],
    address: u16,
    trace: &[u8],
    last: &mut [u64],
    part: &mut [u16],
) -> u16
    ensures number { result ≡ (values_of (asked (settings_from settings.now) address (heard_in trace.now) ram.old).at.who).number }
    ensures ram { ram.new ≡ (asked (settings_from settings.now) address (heard_in trace.now) ram.old).ram }
    ensures last { last.new ≡ over last.old ((values_of (asked (settings_from settings.now) address (heard_in trace.now) ram.old).at.who).last ∷ []) }
    ensures part { part.new ≡ over part.old (part_words (values_of (asked (settings_from settings.now) address (heard_in trace.now) ram.old).at.who)) }
{
    let w = ask(ram, settings_from(settings), address, trace);
    tell(last, part, w)
}

// The label of the whole area: each meeting pair once, and the unsound cells.
ghost use Rattle.std.specs.Prelude.{◌≡◌, [], ◌+◌, ◌≤◌, ◌<◌, length};
ghost use Rattle.std.proofs.lemmas.List.Edits.{sets};
ghost use Rattle.label.specs.Listing.{passing, pairs_with, pairs_below, pair_words};
ghost use Rattle.label_spans.specs.Span.{places_meet, read_in_vain};
ghost use Rattle.label.specs.Label.{meeting_pairs, unsound_cells, area_answer, area_label, pairs_into};

use area::area::ground_refusal;
use area::numbered::{is_read, read_end};
use label_spans::span::{Span, Spans, read_spans, spans_meet};
use memory::ram::put;
use words::settings::Settings;

// The number, the unsound cells, how many there are, and how many pairs there are in all; the rest is zero. An array
// with a count, since there is no heap.
#[derive(Clone, Copy, Debug, PartialEq, Eq)]
pub struct AreaLabel {
    pub number: u16,
    pub unsound_count: u16,
    pub unsound: [u16; 90],
    pub pairs: u16,
}

// The pairs of which this cell is the lower, from the place `used` on. Answers the place after them. A cell that takes
// no part has none. A place, and not the rest of the slice, since pairs are counted past its end, too.
fn put_pairs_with(spans: &Spans, end: u16, lower: u16, pairs: &mut [u16], used: usize) -> usize
    requires { ((lower < end) × (end ≤ 96)) × (used ≤ 9216) }
    ensures words { pairs.new ≡ sets pairs.old used (pair_words (pairs_with (places_meet spans.now) end lower)) }
    ensures next { result ≡ used + length (pairs_with (places_meet spans.now) end lower) }
{
    let own = spans[lower as usize];
    if own.end == 0 {
        return used;
    }
    let mut at = used;
    for higher in lower + 1..end {
        if spans_meet(own, spans[higher as usize]) {
            put(pairs, at, 256 * lower + higher);
            at += 1;
        }
    }
    at
}

// All pairs of the cells below `end`, by rising lower number. Answers how many there are.
fn put_pairs(spans: &Spans, end: u16, pairs: &mut [u16]) -> usize
    requires { end ≤ 96 }
    ensures words { pairs.new ≡ sets pairs.old 0 (pair_words (pairs_below (places_meet spans.now) end end)) }
    ensures count { result ≡ length (pairs_below (places_meet spans.now) end end) }
{
    let mut used = 0;
    for lower in 0..end {
        used = put_pairs_with(spans, end, lower, pairs, used);
    }
    used
}

// The answer that names no unsound cell.
#[tactic(auto, unfolding(crate::specs::Label::area_answer))]
fn none_unsound(number: u16, pairs: u16) -> AreaLabel
    ensures { result ≡ area_answer number [] pairs }
{
    AreaLabel {
        number,
        unsound_count: 0,
        unsound: [0; 90],
        pairs,
    }
}

// Read, and with no span: unsound.
#[tactic(auto, unfolding(label_spans::specs::Span::read_in_vain))]
fn read_in_vain(s: Settings, spans: &Spans, number: u16) -> bool
    requires { number < 96 }
    ensures { result ≡ read_in_vain s spans.now number }
{
    is_read(s, number) && spans[number as usize].end == 0
}

// The unsound cells.
fn list_unsound(s: Settings, spans: &Spans, pairs: u16) -> AreaLabel
    ensures { result ≡ area_answer 0 (passing (read_in_vain s spans.now) 96) pairs }
{
    let mut unsound = [0; 90];
    let mut count = 0;
    for number in 0..96 {
        if read_in_vain(s, spans, number) {
            unsound[count] = number;
            count += 1;
        }
    }
    AreaLabel {
        number: 0,
        unsound_count: count as u16,
        unsound,
        pairs,
    }
}

// The label where nothing refuses.
fn list_area(ram: &[u16], s: Settings, pairs: &mut [u16]) -> AreaLabel
    ensures label { result ≡ area_answer 0 (unsound_cells ram.now s) (length (meeting_pairs ram.now s)) }
    ensures pairs { pairs.new ≡ sets pairs.old 0 (pair_words (meeting_pairs ram.now s)) }
{
    let mut spans = [Span::default(); 96];
    read_spans(ram, s, &mut spans);
    let count = put_pairs(&spans, read_end(s), pairs);
    list_unsound(s, &spans, count as u16)
}

// The pairs go into the lent slice as far as it reaches; the answer tells how many there are in all.
pub fn label_area(ram: &[u16], s: Settings, pairs: &mut [u16]) -> AreaLabel
    ensures label { result ≡ area_label ram.now s }
    ensures pairs { pairs.new ≡ pairs_into ram.now s pairs.old }
{
    let number = ground_refusal(ram, s);
    if number != 0 {
        return none_unsound(number, 0);
    }
    list_area(ram, s, pairs)
}

// What is tested of two tables: that they stand beside a RAM, word for word, and that they hold what a replay puts there.
ghost use Rattle.std.specs.Prelude.{◌≡◌};
ghost use Rattle.who_tables.specs.Tests.{tables_refused, fill_refusal, entry_refusal};

use crate::mark::is_entry;
use crate::table::number_at;
use memory::map::ram_refused;
use memory::ram::word_at;
use words::number::{ADDRESS_BEYOND, BAD_SETTINGS, RAM_LENGTH, RECORD_LAYOUT};
use words::settings::{Settings, settings_refused};

#[tactic(auto, unfolding(crate::specs::Tests::tables_refused))]
fn tables_refused(words: usize, numbers: usize, marks: usize) -> bool
    ensures { result ≡ tables_refused words numbers marks }
{
    ram_refused(words) || !(numbers == words && marks == words)
}

// Before a part of a trace is replayed into tables: 1, then 3.
#[tactic(auto, unfolding(crate::specs::Tests::fill_refusal, words::specs::Refusal::first_of))]
pub fn fill_refusal(words: usize, numbers: usize, marks: usize, s: Settings) -> u16
    ensures { result ≡ fill_refusal words numbers marks s }
{
    if tables_refused(words, numbers, marks) {
        return RAM_LENGTH;
    }
    if settings_refused(s) {
        return BAD_SETTINGS;
    }
    0
}

// Before tables are asked about an address: 1, 5, then 12.
#[tactic(auto, unfolding(crate::specs::Tests::entry_refusal, words::specs::Refusal::first_of))]
pub(crate) fn entry_refusal(numbers: &[u64], marks: &[u16], address: u16) -> u16
    ensures { result ≡ entry_refusal numbers.now marks.now address }
{
    let a = usize::from(address);
    if tables_refused(numbers.len(), numbers.len(), marks.len()) {
        return RAM_LENGTH;
    }
    if !is_entry(number_at(numbers, a), word_at(marks, a)) {
        return RECORD_LAYOUT;
    }
    if numbers.len() <= a {
        return ADDRESS_BEYOND;
    }
    0
}

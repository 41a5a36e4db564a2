// The functions of `c_who` for callers in C and Rust: each export calls the library's function of its name and
// says what that says. The C header is include/solkverva.h.

#![tactic(auto)]

ghost use Rattle.std.specs.Prelude.{◌≡◌, [], ◌∷◌};
ghost use Rattle.who.specs.Replay.{heard_in, asked};
ghost use Rattle.who_tables.specs.Table.{entry_at, refusal_of};
ghost use Rattle.who.specs.Values.{values_of};
ghost use Rattle.c_words.specs.Over.{over};
ghost use Rattle.c_words.specs.Setup.{settings_from};
ghost use Rattle.c_who.specs.Origins.{part_words, lent_tables_of, tables_in, tables_after};

// A part of a trace, for every address at once. RAM is replayed where it is lent, and the tables go on from what they
// hold. Every call tests what it is given, and nothing remembers a refusal.
#[unsafe(no_mangle)]
pub extern "C" fn solkverva_who_fill(
    ram: &mut [u16],
    numbers: &mut [u64],
    marks: &mut [u16],
    settings: &[u16],
    remembered: &mut [u16],
    records: &mut [u64],
    trace: &[u8],
) -> u16
    ensures number { result ≡ refusal_of (settings_from settings.now) (tables_in (lent_tables_of ram.old numbers.old marks.old remembered.old records.old)) }
    ensures lent { lent_tables_of ram.new numbers.new marks.new remembered.new records.new ≡ tables_after (settings_from settings.now) (heard_in trace.now) (lent_tables_of ram.old numbers.old marks.old remembered.old records.old) }
{
    c_who::origins::solkverva_who_fill(ram, numbers, marks, settings, remembered, records, trace)
}

// What filled tables say of an address.
#[unsafe(no_mangle)]
pub extern "C" fn solkverva_who_entry(
    numbers: &[u64],
    marks: &[u16],
    address: u16,
    last: &mut [u64],
    part: &mut [u16],
) -> u16
    ensures number { result ≡ (values_of (entry_at numbers.now marks.now address)).number }
    ensures last { last.new ≡ over last.old ((values_of (entry_at numbers.now marks.now address)).last ∷ []) }
    ensures part { part.new ≡ over part.old (part_words (values_of (entry_at numbers.now marks.now address))) }
{
    c_who::origins::solkverva_who_entry(numbers, marks, address, last, part)
}

// The question about one address, of a whole trace. RAM holds the image, and afterwards what the trace leaves.
#[unsafe(no_mangle)]
pub extern "C" fn solkverva_who(
    ram: &mut [u16],
    settings: &[u16],
    address: u16,
    trace: &[u8],
    last: &mut [u64],
    part: &mut [u16],
) -> u16
    ensures number { result ≡ (values_of (asked (settings_from settings.now) address (heard_in trace.now) ram.old).at.who).number }
    ensures ram { ram.new ≡ (asked (settings_from settings.now) address (heard_in trace.now) ram.old).ram }
    ensures last { last.new ≡ over last.old ((values_of (asked (settings_from settings.now) address (heard_in trace.now) ram.old).at.who).last ∷ []) }
    ensures part { part.new ≡ over part.old (part_words (values_of (asked (settings_from settings.now) address (heard_in trace.now) ram.old).at.who)) }
{
    c_who::origins::solkverva_who(ram, settings, address, trace, last, part)
}

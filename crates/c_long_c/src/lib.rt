// The functions of `c_long` for callers in C and Rust: each export calls the library's function of its name and
// says what that says. The C header is include/solkverva.h.

#![tactic(auto)]

ghost use Rattle.std.specs.Prelude.{◌≡◌};
ghost use Rattle.layout_long.specs.Long.{read_long};
ghost use Rattle.layout_long.specs.WritingLong.{write_long};
ghost use Rattle.layout_long.specs.Conversion.{longer_of, shorter_of};
ghost use Rattle.c_words.specs.Over.{over};
ghost use Rattle.c_words_long.specs.LongValues.{long_from, long_words};

// The reader of long records.
#[unsafe(no_mangle)]
pub extern "C" fn solkverva_read_long(bytes: &[u8], value: &mut [u16]) -> u16
    ensures number { result ≡ (read_long bytes.now).number }
    ensures value { value.new ≡ over value.old (long_words (read_long bytes.now).value) }
{
    c_long::calls::solkverva_read_long(bytes, value)
}

// The writer of long records.
#[unsafe(no_mangle)]
pub extern "C" fn solkverva_write_long(value: &[u16], bytes: &mut [u8]) -> u16
    ensures number { result ≡ (write_long (long_from value.now)).number }
    ensures bytes { bytes.new ≡ over bytes.old (write_long (long_from value.now)).bytes }
{
    c_long::calls::solkverva_write_long(value, bytes)
}

// Old to new.
#[unsafe(no_mangle)]
pub extern "C" fn solkverva_longer(old: &[u8], bytes: &mut [u8]) -> u16
    ensures number { result ≡ (longer_of old.now).number }
    ensures bytes { bytes.new ≡ over bytes.old (longer_of old.now).bytes }
{
    c_long::calls::solkverva_longer(old, bytes)
}

// New to old.
#[unsafe(no_mangle)]
pub extern "C" fn solkverva_shorter(long: &[u8], bytes: &mut [u8]) -> u16
    ensures number { result ≡ (shorter_of long.now).number }
    ensures bytes { bytes.new ≡ over bytes.old (shorter_of long.now).bytes }
{
    c_long::calls::solkverva_shorter(long, bytes)
}

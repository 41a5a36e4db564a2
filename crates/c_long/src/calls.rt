// The exported reader, writer and conversions of long records.
ghost use Rattle.std.specs.Prelude.{◌≡◌};
ghost use Rattle.layout_long.specs.Long.{read_long};
ghost use Rattle.layout_long.specs.WritingLong.{write_long};
ghost use Rattle.layout_long.specs.Conversion.{longer_of, shorter_of};
ghost use Rattle.c_words.specs.Over.{over};
ghost use Rattle.c_words_long.specs.LongValues.{long_from, long_words};

use c_words::over::put_over;
use c_words_long::long_values::{long_from, put_long};
use layout_long::conversion::{longer, shorter};
use layout_long::reader::read_long;
use layout_long::writer::write_long;

// The reader of long records.
#[unsafe(no_mangle)]
pub extern "C" fn solkverva_read_long(bytes: &[u8], value: &mut [u16]) -> u16
    ensures number { result ≡ (read_long bytes.now).number }
    ensures value { value.new ≡ over value.old (long_words (read_long bytes.now).value) }
{
    let r = read_long(bytes);
    put_long(value, r.value);
    r.number
}

// The writer of long records.
#[unsafe(no_mangle)]
pub extern "C" fn solkverva_write_long(value: &[u16], bytes: &mut [u8]) -> u16
    ensures number { result ≡ (write_long (long_from value.now)).number }
    ensures bytes { bytes.new ≡ over bytes.old (write_long (long_from value.now)).bytes }
{
    let w = write_long(long_from(value));
    put_over(bytes, 0, &w.bytes);
    w.number
}

// Old to new.
#[unsafe(no_mangle)]
pub extern "C" fn solkverva_longer(old: &[u8], bytes: &mut [u8]) -> u16
    ensures number { result ≡ (longer_of old.now).number }
    ensures bytes { bytes.new ≡ over bytes.old (longer_of old.now).bytes }
{
    let w = longer(old);
    put_over(bytes, 0, &w.bytes);
    w.number
}

// New to old.
#[unsafe(no_mangle)]
pub extern "C" fn solkverva_shorter(long: &[u8], bytes: &mut [u8]) -> u16
    ensures number { result ≡ (shorter_of long.now).number }
    ensures bytes { bytes.new ≡ over bytes.old (shorter_of long.now).bytes }
{
    let w = shorter(long);
    put_over(bytes, 0, &w.bytes);
    w.number
}

// The reader and the writer of long records undo each other: for every value and every slice that a caller can have.
ghost use Rattle.std.specs.Prelude.{◌≡◌};
ghost use Rattle.layout_long.specs.RoundTrip.{long_read_back, long_write_back};

use crate::reader::{LongReading, read_long};
use crate::value::{LongRecord, zero_long};
use crate::writer::{LongWritten, write_long};

// Writes `v` and reads what was written: `v` again, or the writer's refusal.
pub fn read_written_long(v: LongRecord) -> LongReading
    ensures { result ≡ long_read_back v }
{
    let w = write_long(v);
    if w.number != 0 {
        let value = zero_long();
        return LongReading {
            number: w.number,
            value,
        };
    }
    let bytes = w.bytes;
    read_long(&bytes)
}

// Reads `s` and writes what was read: the bytes of `s` again, or the reader's refusal.
pub fn write_read_long(s: &[u8]) -> LongWritten
    ensures { result ≡ long_write_back s.now }
{
    let r = read_long(s);
    if r.number != 0 {
        return LongWritten {
            number: r.number,
            bytes: [0; 96],
        };
    }
    let v = r.value;
    write_long(v)
}

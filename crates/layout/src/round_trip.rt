// The reader and the writer undo each other: for every value and every slice that a caller can have.
ghost use Rattle.std.specs.Prelude.{◌≡◌};
ghost use Rattle.layout.specs.RoundTrip.{read_back, write_back};

use crate::reader::{Reading, read};
use crate::writer::{Written, write};
use records::value::{Record, zero_value};

// Writes `v` and reads what was written: `v` again, or the writer's refusal.
pub fn read_written(v: Record) -> Reading
    ensures { result ≡ read_back v }
{
    let w = write(v);
    if w.number != 0 {
        let value = zero_value();
        return Reading {
            number: w.number,
            value,
        };
    }
    let bytes = w.bytes;
    read(&bytes)
}

// Reads `s` and writes what was read: the bytes of `s` again, or the reader's refusal.
pub fn write_read(s: &[u8]) -> Written
    ensures { result ≡ write_back s.now }
{
    let r = read(s);
    if r.number != 0 {
        return Written {
            number: r.number,
            bytes: [0; 80],
        };
    }
    let v = r.value;
    write(v)
}

// Standard input, buffer by buffer. A read that fails is told from the end of the input.
ghost use Rattle.std.specs.Counts.{IsPrefixLen};

use std::io::Read;

// How many bytes were read, and whether reading failed after them. Both are used: what was read before a failure is
// still walked.
#[derive(Clone, Copy, Debug, PartialEq, Eq)]
pub struct Filled {
    pub got: usize,
    pub failed: bool,
}

// Reads until the buffer is full, the input ends or a read fails. What is read is for the system to say; never is it
// more than the buffer holds.
pub fn fill(rt: &HostRuntime, buffer: &mut [u8]) -> Filled
    ensures { IsPrefixLen result.got buffer.new }
{
    let mut got: usize = 0;
    while got < buffer.len() {
        match rt.stdin().read(&mut buffer[got..]) {
            Ok(0) => return Filled { got, failed: false },
            Ok(more) => got += more,
            Err(_) => {
                eprint!(rt; "reading failed\n").unwrap_or(());
                return Filled { got, failed: true };
            }
        }
    }
    Filled { got, failed: false }
}

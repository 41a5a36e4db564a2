// Standard output. Whether all went well so far is handed through, so that nothing is printed after a failure.
ghost use Rattle.std.specs.Prelude.{◌≡◌, ◌&&◌, take, min, length};
ghost use Rattle.std.specs.Counts.{IsPrefixLen};

use std::io::Print;

// How far text of this length reaches into the buffer.
fn reach(out: &[u8], used: usize) -> usize
    ensures { (result ≡ min used (length out.now)) × IsPrefixLen result out.now }
{
    used.min(out.len())
}

// The text at the front of the buffer.
fn front(out: &[u8], used: usize) -> &[u8]
    ensures { result.now ≡ take (min used (length out.now)) out.now }
{
    &out[..reach(out, used)]
}

// Writes the front of the buffer. Answers whether it could.
fn write_front(rt: &HostRuntime, out: &[u8], used: usize) -> bool {
    let written = rt.write_all(front(out, used)).is_ok();
    if !written {
        eprint!(rt; "writing failed\n").unwrap_or(());
    }
    written
}

// Prints the text at the front of the buffer, as far as the buffer reaches. Answers whether all went well so far: where
// something failed before, nothing is printed. What else the answer is is for the system to say.
pub fn print(rt: &HostRuntime, out: &[u8], used: usize, well: bool) -> bool
    ensures { result ≡ (well && result) }
{
    well && write_front(rt, out, used)
}

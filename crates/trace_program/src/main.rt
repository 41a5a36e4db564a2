// Reads a RAM image and a trace from standard input, and prints a line for each record.
//
// Thin: what is printed is settled in the library. A refill is a whole number of records, so none is split, and all
// lines of a refill are written at once.

#![tactic(auto)]

ghost use Rattle.std.specs.Prelude.{◌≤◌, length};

use streams::input::{Filled, fill};
use streams::output::print;
use trace::walk::walk;
use trace_ends::image::{load_image, put_image_line};
use trace_ends::last_lines::put_last_lines;
use words::remembered::{Remembered, nothing_remembered};
use words::settings::program_settings;
use words::sizes::RECORD_BYTES;

// Where the walk stands after a refill: how many bytes are left over, whether nothing failed so far, and whether the
// input may go on.
#[derive(Clone, Copy)]
struct Standing {
    remembered: Remembered,
    number: u64,
    left: usize,
    well: bool,
    more: bool,
}

// Prints text that is all in the buffer. Answers whether all went well so far.
fn print_all(rt: &HostRuntime, out: &[u8], used: usize, well: bool) -> bool
    requires { used ≤ length out.now }
{
    print(rt, out, used, well)
}

// Fills the buffer, walks its whole records and writes their lines. A short fill is the end of the input, or reading
// failed.
fn refill(
    rt: &HostRuntime,
    ram: &mut [u16],
    reply: &mut [u16],
    buffer: &mut [u8],
    out: &mut [u8],
    at: Standing,
) -> Standing
    requires { length buffer.old ≤ length out.old }
{
    let Filled { got, failed } = fill(rt, buffer);
    let w = walk(
        ram,
        reply,
        out,
        program_settings(),
        at.remembered,
        at.number,
        &buffer[..got],
    );
    let written = print_all(rt, out, w.used, at.well);
    Standing {
        remembered: w.remembered,
        number: w.number,
        left: got % RECORD_BYTES,
        well: written && !failed,
        more: written && got == buffer.len(),
    }
}

// A proved loop has to end, and nothing says that an input does. So it counts to a number that no run uses up.
// No end line follows where reading or writing failed.
fn run(rt: &HostRuntime, ram: &mut [u16], reply: &mut [u16], buffer: &mut [u8], out: &mut [u8])
    requires { (length buffer.old ≤ length out.old) × (100 ≤ length out.old) }
{
    let mut at = Standing {
        remembered: nothing_remembered(),
        number: 0,
        left: 0,
        well: true,
        more: true,
    };
    for _ in 0..u64::MAX {
        if !at.more {
            break;
        }
        at = refill(rt, ram, reply, buffer, out, at);
    }
    if at.well {
        let used = put_last_lines(out, at.left, at.number);
        print_all(rt, out, used, true);
    }
}

// The image, and then the trace.
fn image_and_trace(
    rt: &HostRuntime,
    ram: &mut [u16],
    reply: &mut [u16],
    image: &mut [u8],
    buffer: &mut [u8],
    out: &mut [u8],
)
    requires { (length buffer.old ≤ length out.old) × (100 ≤ length out.old) }
{
    let Filled { got, failed } = fill(rt, image);
    if failed {
        return;
    }
    if got < image.len() {
        let used = put_image_line(out, got);
        print_all(rt, out, used, true);
        return;
    }
    load_image(ram, image);
    run(rt, ram, reply, buffer, out);
}

// The buffer holds 819 records, and their lines are shorter.
fn main(rt: HostRuntime) {
    let mut ram = [0u16; 4096];
    let mut reply = [0u16; 33];
    let mut image = [0u8; 8192];
    let mut buffer = [0u8; 65520];
    let mut out = [0u8; 65520];
    image_and_trace(&rt, &mut ram, &mut reply, &mut image, &mut buffer, &mut out);
}

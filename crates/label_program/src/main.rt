// Reads a RAM image from standard input, and prints the label of the whole area with the trace program's settings.
//
// Thin: what is printed is settled in the library. The buffer has room for the label of any image.

#![tactic(auto)]

ghost use Rattle.std.specs.Prelude.{◌≤◌, length};

use label_text::printed::put_area_text;
use streams::input::{Filled, fill};
use streams::output::print;
use trace_ends::image::{load_image, put_image_line};
use words::settings::program_settings;

// The label of a whole image, or the line of one that is cut short. Answers the length of the text.
fn put_text(ram: &mut [u16], out: &mut [u8], image: &[u8], got: usize) -> usize
    ensures { result ≤ 350000 }
{
    if got < image.len() {
        return put_image_line(out, got);
    }
    load_image(ram, image);
    put_area_text(out, ram, program_settings())
}

// Prints text that is all in the buffer.
fn print_all(rt: &HostRuntime, out: &[u8], used: usize)
    requires { used ≤ length out.now }
{
    print(rt, out, used, true);
}

// Nothing is printed where reading failed.
fn label(rt: &HostRuntime, ram: &mut [u16], out: &mut [u8], image: &mut [u8])
    requires { 350000 ≤ length out.old }
{
    let Filled { got, failed } = fill(rt, image);
    if failed {
        return;
    }
    let used = put_text(ram, out, image, got);
    print_all(rt, out, used);
}

fn main(rt: HostRuntime) {
    let mut ram = [0u16; 4096];
    let mut image = [0u8; 8192];
    let mut out = [0u8; 350000];
    label(&rt, &mut ram, &mut out, &mut image);
}

// Runs a script of cases and prints an answer to each. The script is the file `stdin` beside src/, and says at its head
// how to read it; what it must print is stored in the file `stdout` and compared at every check.

#![tactic(auto)]

mod bench;
mod blocks;
mod commands;
mod controller;
mod lines;
mod long;
mod messages;
mod origins;
mod pairs;
mod ram;
mod ranges;
mod reading;
mod script;
mod show;
mod verb;

use streams::input::fill;

fn main(rt: HostRuntime) {
    let mut text = [0u8; 131072];
    let n = fill(&rt, &mut text).got;
    let mut ram = [0u16; 65792];
    let mut reply = [0u16; 64];
    script::run(&rt, &text[..n], &mut ram, &mut reply);
}

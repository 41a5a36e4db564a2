// Windows, cells, the stack and the whole-area check.
use crate::bench::{Bench, settings};
use crate::lines::Numbers;
use crate::ram::front_of;
use crate::show::{Answer, tell};
use area::area::check_area;
use cells::cell::{cell_at, sound_cell, window_of};
use cells::stack::{stack_sound, stack_window};
use memory::kind::{cell_number, kind_of};
use std::io::Print;
use windows::window::{aligned_around, place, rolls_over};
use words::command::subaddress;
use words::settings::settings_refused;

// A pointer that moves on by `k` words, in a block of `size`.
pub(crate) fn moved(rt: &impl Print, pointer: u16, size: u16, k: u16) {
    let w = aligned_around(pointer, size);
    let to = place(w, k) % 65536;
    tell(rt, format_args!(" from {:04X} to {to:04X}", w.start));
    tell(rt, format_args!(" rollover {}", Answer(rolls_over(w, k))));
}

// The cell that a command uses, with another pointer if the line has two numbers.
pub(crate) fn cell(rt: &impl Print, ram: &[u16], b: Bench, n: Numbers) {
    let s = b.settings;
    let kind = kind_of(s, n.a);
    let mut c = cell_at(ram, s.area, kind, subaddress(n.a));
    if n.count == 2 {
        c.pointer = n.b;
    }
    let number = cell_number(kind, c.subaddress) % 65536;
    let window = window_of(c.scheme, c.pointer);
    let sound = sound_cell(b.ram, stack_window(ram, s), c);
    tell(rt, format_args!(" cell {number} pointer {:04X}", c.pointer));
    tell(
        rt,
        format_args!(" window {:04X} size {}", window.start, window.size),
    );
    tell(rt, format_args!(" end {}", Answer(c.end_interrupt)));
    tell(
        rt,
        format_args!(" circular {}", Answer(c.circular_interrupt)),
    );
    tell(rt, format_args!(" sound {}", Answer(sound)));
}

// The number and the cell of the whole-area check, in area A without and with separate-broadcast, and in area B with
// it; whether the stack is sound, and whether the settings are refused.
pub(crate) fn check(rt: &impl Print, ram: &[u16], b: Bench) {
    let s = b.settings;
    let lent = front_of(ram, b.ram);
    let broadcast_off = if s.broadcast { 0 } else { 0x100 };
    let joined = 0xD + broadcast_off;
    let separate = 0xF + broadcast_off;
    let x = check_area(lent, settings(s.address, 0, s.stack_size, joined));
    let y = check_area(lent, settings(s.address, 0, s.stack_size, separate));
    let z = check_area(lent, settings(s.address, 1, s.stack_size, separate));
    tell(rt, format_args!(" A {} {}", x.number, x.cell));
    tell(rt, format_args!(" separate {} {}", y.number, y.cell));
    tell(rt, format_args!(" B {} {}", z.number, z.cell));
    tell(
        rt,
        format_args!(" stack sound {}", Answer(stack_sound(lent, s))),
    );
    tell(
        rt,
        format_args!(" settings refused {}", Answer(settings_refused(s))),
    );
}

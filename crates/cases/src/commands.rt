// A command word: its fields, whose it is, and what the tables say of it.
use crate::show::{Answer, tell};
use memory::map::{is_busy_at, is_illegal_at};
use std::io::Print;
use words::command;
use words::settings::{Settings, is_broadcast, is_not_ours, is_own};

pub(crate) fn command(rt: &impl Print, ram: &[u16], s: Settings, w: u16) {
    tell(rt, format_args!(" address {}", command::address(w)));
    tell(
        rt,
        format_args!(" transmit {}", Answer(command::transmit(w))),
    );
    tell(rt, format_args!(" subaddress {}", command::subaddress(w)));
    tell(rt, format_args!(" count field {}", command::count_field(w)));
    tell(rt, format_args!(" words {}", command::word_count(w)));
    tell(
        rt,
        format_args!(" mode {}", Answer(command::mode_subaddress(w))),
    );
    tell(rt, format_args!(" own {}", Answer(is_own(s, w))));
    tell(
        rt,
        format_args!(" broadcast {}", Answer(is_broadcast(s, w))),
    );
    tell(rt, format_args!(" not ours {}", Answer(is_not_ours(s, w))));
    let own = !is_broadcast(s, w);
    tell(
        rt,
        format_args!(" busy {}", Answer(is_busy_at(ram, own, w))),
    );
    tell(
        rt,
        format_args!(" illegal {}", Answer(is_illegal_at(ram, own, w))),
    );
}

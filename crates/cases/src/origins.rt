// Who put a word where it is: the record at hand as a part of a trace.
use crate::bench::Bench;
use crate::lines::Numbers;
use crate::ram::front;
use crate::show::tell;
use std::io::Print;
use who::standing::Standing;
use who::values::values_of;
use who_origin::origin::Who;
use who_replay::question::go_on;

// The numbers of the answer, and where the replay stands.
fn standing(rt: &impl Print, at: Standing) {
    let told = values_of(at.who);
    let r = at.remembered;
    tell(
        rt,
        format_args!(" {} record {}", told.number, told.last % 65536),
    );
    tell(rt, format_args!(" part {} cell {}", told.kind, told.cell));
    tell(rt, format_args!(" place {}", told.place));
    tell(rt, format_args!(" after {}", at.number % 65536));
    tell(
        rt,
        format_args!(" remembers {:04X} {:04X}\n", r.command, r.status),
    );
}

// The question about the first number, after an answer that the second refused, if there is one, and after as many
// records as the third says.
pub(crate) fn part(rt: &impl Print, ram: &mut [u16], b: Bench, n: Numbers) -> Bench {
    let written = layout::writer::write(b.record);
    let at = Standing {
        remembered: b.remembered,
        number: u64::from(n.c),
        who: match n.b {
            0 => Who::AsInImage,
            number => Who::Refused(number),
        },
    };
    let end = go_on(front(ram, b.ram), b.settings, n.a, at, &written.bytes);
    standing(rt, end);
    Bench {
        remembered: end.remembered,
        ..b
    }
}

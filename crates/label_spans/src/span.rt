// The windows of all cells, read once: where each begins and where it ends. A cell that is not read or not sound has
// none.
ghost use Rattle.std.specs.Prelude.{◌≡◌, ℕ, ◌<◌, length};
ghost use Rattle.memory.specs.Kind.{cell_number};
ghost use Rattle.label_spans.specs.Span.{span_of_window, span_of, starts_of, ends_of, starts_into, ends_into, spans_meet, span_at};

use area::numbered::is_read;
use cells::cell::{cell_at, sound_within, window_of};
use cells::stack::stack_window;
use memory::kind::{Kind, cell_number};
use windows::window::Window;
use words::settings::Settings;

// The addresses from `start` up to `end`, which is not one of them. No address at all where both are 0.
#[derive(Clone, Copy, Debug, Default, PartialEq, Eq)]
pub struct Span {
    pub start: u32,
    pub end: u32,
}

// Of each cell, at the cell's number.
pub type Spans = [Span; 96];

impl From<Window> for Span {
    ghost from_gives = { λ w v. v ≡ span_of_window w };

    fn from(w: Window) -> Span {
        let start = u32::from(w.start);
        Span {
            start,
            end: start + u32::from(w.size),
        }
    }
}

#[tactic(auto, using(crate::proofs::ByKind::kind_numbers), unfolding(crate::specs::Span::span_of, crate::specs::Span::read_and_sound, cells::specs::Cell::sound_cell))]
fn span_in(ram: &[u16], s: Settings, stack: Window, kind: Kind, subaddress: u16) -> Span
    requires { subaddress < 32 }
    ensures { result ≡ span_of ram.now s stack (cell_number kind subaddress) }
{
    if !is_read(s, cell_number(kind, subaddress) as u16) {
        return Span::default();
    }
    let c = cell_at(ram, s.area, kind, subaddress);
    let w = window_of(c.scheme, c.pointer);
    if !sound_within(ram.len(), stack, c, w) {
        return Span::default();
    }
    Span::from(w)
}

#[tactic(auto, unfolding(crate::specs::Span::spans_meet))]
pub fn spans_meet(v: Span, w: Span) -> bool
    ensures { result ≡ spans_meet v w }
{
    v.start < w.end && w.start < v.end
}

// The spans of the cells of one kind. Kind by kind, so that the compiler decides by the kind once for them all.
fn read_kind(ram: &[u16], s: Settings, stack: Window, kind: Kind, spans: &mut [Span])
    requires { length spans.old ≡ 32 }
    ensures { (sub : ℕ) → sub < 32 → span_at spans.new sub ≡ span_of ram.now s stack (cell_number kind sub) }
{
    for (sub, span) in spans.iter_mut().enumerate() {
        *span = span_in(ram, s, stack, kind, sub as u16);
    }
}

// The span of each cell, at its number.
pub fn read_spans(ram: &[u16], s: Settings, spans: &mut Spans)
    ensures starts { starts_of spans.new ≡ starts_into ram.now s (starts_of spans.old) }
    ensures ends { ends_of spans.new ≡ ends_into ram.now s (ends_of spans.old) }
{
    let stack = stack_window(ram, s);
    read_kind(ram, s, stack, Kind::Receive, &mut spans[..32]);
    read_kind(ram, s, stack, Kind::Transmit, &mut spans[32..64]);
    read_kind(ram, s, stack, Kind::Broadcast, &mut spans[64..]);
}

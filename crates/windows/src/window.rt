// Windows: a run of RAM with a place in it, wrapping inside it, and whether two runs share a word.
ghost use Rattle.std.specs.Prelude.{◌≡◌, ◌+◌, ◌%◌};
ghost use Rattle.windows.specs.Window.{run_from, aligned, place_of, rolls_over, windows_meet, meets_fixed, fits_below};

// A run of `size` words from `start`, and how far into it the pointer stands.
#[derive(Clone, Copy, Debug, PartialEq, Eq)]
pub struct Window {
    pub start: u16,
    pub size: u16,
    pub offset: u16,
}

impl Window {
    // The address after the last word.
    fn end(self) -> usize
        ensures { result ≡ self.start + self.size }
    {
        self.start as usize + self.size as usize
    }
}

// The remainder; x itself where n is 0, as in the definitions. A place passes a window's end once at most: the first
// two cases are all that a sound message meets, and need no division.
fn remainder(x: usize, n: usize) -> usize
    ensures { result ≡ x % n }
{
    if x < n {
        x
    } else if x - n < n {
        x - n
    } else {
        x.checked_rem(n).unwrap_or(x)
    }
}

// The window of `size` words that starts at the pointer.
#[tactic(auto, unfolding(crate::specs::Window::run_from))]
pub fn run_from(pointer: u16, size: u16) -> Window
    ensures { result ≡ run_from pointer size }
{
    Window {
        start: pointer,
        size,
        offset: 0,
    }
}

// The window of `size` words, aligned to that size, around the pointer.
#[tactic(auto, unfolding(crate::specs::Window::aligned))]
pub fn aligned_around(pointer: u16, size: u16) -> Window
    ensures { result ≡ aligned pointer size }
{
    let offset = pointer.checked_rem(size).unwrap_or(pointer);
    Window {
        start: pointer - offset,
        size,
        offset,
    }
}

// Place k of a window, counted from its pointer, wrapping inside it.
#[tactic(auto, unfolding(crate::specs::Window::place_of))]
pub fn place(w: Window, k: u16) -> usize
    ensures { result ≡ place_of w k }
{
    let size = w.size as usize;
    let count = k as usize;
    (w.start as usize) + remainder((w.offset as usize) + count, size)
}

// Whether k places from the pointer reach or pass the window's end.
#[tactic(auto, unfolding(crate::specs::Window::rolls_over))]
pub fn rolls_over(w: Window, k: u16) -> bool
    ensures { result ≡ rolls_over w k }
{
    (w.size as usize) <= (w.offset as usize) + (k as usize)
}

// Whether two windows share a word. No `&&`: with it, here and in `sound_within`, the check of an area takes 5 in 100 more
// instructions (`docs/BENCH.md`).
#[tactic(auto, unfolding(crate::specs::Window::meets))]
pub fn windows_meet(v: Window, w: Window) -> bool
    ensures { result ≡ windows_meet v w }
{
    ((v.start as usize) < w.end()) & ((w.start as usize) < v.end())
}

// Whether a window meets a fixed area. Most windows lie above them all, and one test tells. Early returns, since of one
// `&&` the compiler makes every test (`docs/BENCH.md`).
#[tactic(auto, unfolding(crate::specs::Window::meets_fixed, crate::specs::Window::meets))]
pub fn meets_fixed(w: Window) -> bool
    ensures { result ≡ meets_fixed w }
{
    let start = w.start as usize;
    let end = w.end();
    if 0x400 <= start {
        return false;
    }
    if end <= 0x100 {
        return false;
    }
    start < 0x248 || 0x300 < end
}

// Whether a window lies in RAM of this length.
pub fn fits_below(w: Window, words: usize) -> bool
    ensures { result ≡ fits_below w words }
{
    w.end() <= words
}

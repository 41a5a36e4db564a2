// Text into a lent buffer. A byte past the buffer's end is dropped, as in the definition; the place goes on all the same,
// so that a caller sees what did not fit.
ghost use Rattle.std.specs.Prelude.{ℕ, ◌≡◌, ◌+◌, ◌<◌, ◌≤◌, ◌↔◌, IsTrue, List, [], ◌∷◌, length};
ghost use Rattle.text.specs.Text.{Adds, hex_digit, hex_text};

// A lent buffer, and the place behind the text in it. The last number stands for every place past it too: no buffer
// reaches it.
#[derive(Drop)]
pub struct Text<'a> {
    pub out: &'a mut [u8],
    pub at: usize,
}

impl Text<'_> {
    // A byte, as far as there is room for it.
    pub(crate) fn put_byte(&mut self, b: u8)
        ensures { Adds self.old (b ∷ []) self.new }
    {
        if self.at < self.out.len() {
            self.out[self.at] = b;
        }
        self.at = self.at.saturating_add(1);
    }

    // Bytes that there is room for.
    #[inline(always)]
    pub(crate) fn write<const N: usize>(&mut self, bytes: [u8; N])
        requires { self.old.at + N ≤ length self.old.out.now }
        ensures { Adds self.old bytes.entry self.new }
    {
        let end = self.at + N;
        let out = &mut *self.out;
        out[self.at..end].copy_from_slice(&bytes);
        self.at = end;
    }

    // Whether n bytes from the place on lie in the buffer.
    pub(crate) fn has_room(&self, n: usize) -> bool
        ensures { IsTrue result ↔ (self.now.at + n ≤ length self.now.out.now) }
    {
        let size = self.out.len();
        self.at <= size && n <= size - self.at
    }

    // Whether the place lies past the buffer's end.
    #[inline(always)]
    pub(crate) fn is_past(&self) -> bool
        ensures { IsTrue result ↔ (length self.now.out.now ≤ self.now.at) }
    {
        self.out.len() <= self.at
    }

    // Past the buffer's end bytes are counted, and none is put.
    #[inline(always)]
    pub(crate) fn skip(&mut self, n: usize)
        requires { length self.old.out.now ≤ self.old.at }
        ensures { (text : List ℕ) → length text ≡ n → Adds self.old text self.new }
    {
        self.at = self.at.saturating_add(n);
    }

    // A slice that there is room for.
    #[inline(always)]
    fn write_slice(&mut self, s: &[u8])
        requires { self.old.at + length s.now ≤ length self.old.out.now }
        ensures { Adds self.old s.now self.new }
    {
        let end = self.at + s.len();
        let out = &mut *self.out;
        out[self.at..end].copy_from_slice(s);
        self.at = end;
    }

    // Near the buffer's end: as many of the bytes as there is room for.
    #[cold]
    #[inline(never)]
    fn put_cut(&mut self, s: &[u8])
        requires before { self.old.at ≤ length self.old.out.now }
        requires beyond { length self.old.out.now ≤ self.old.at + length s.now }
        ensures { Adds self.old s.now self.new }
    {
        let room = self.out.len() - self.at;
        self.write_slice(&s[..room]);
        self.skip(s.len() - room);
    }

    pub fn put_bytes(&mut self, s: &[u8])
        ensures { Adds self.old s.now self.new }
    {
        if self.is_past() {
            self.skip(s.len());
        } else if self.has_room(s.len()) {
            self.write_slice(s);
        } else {
            self.put_cut(s);
        }
    }

    // A stored word: four hexadecimal digits.
    pub fn put_hex_word(&mut self, w: u16)
        ensures { Adds self.old (hex_text w) self.new }
    {
        if self.is_past() {
            self.skip(4);
        } else {
            self.put_bytes(&[
                hex_digit(w / 4096 % 16),
                hex_digit(w / 256 % 16),
                hex_digit(w / 16 % 16),
                hex_digit(w % 16),
            ]);
        }
    }
}

#[tactic(auto, unfolding(crate::specs::Text::hex_digit))]
pub(crate) fn hex_digit(d: u16) -> u8
    requires { d < 16 }
    ensures { result ≡ hex_digit d }
{
    if d < 10 {
        b'0' + d as u8
    } else {
        b'A' + (d - 10) as u8
    }
}

// Decimal numbers, four digits at a time.
ghost use Rattle.std.specs.Prelude.{◌≡◌, ◌+◌, ◌≤◌, ◌<◌, length};
ghost use Rattle.text.specs.Text.{Adds, digits, decimal_text};

use crate::text::Text;

// A number has at most so many digits.
const MOST_DIGITS: usize = 20;

// How many digits a number has.
pub(crate) fn places(n: u64) -> usize
    ensures { result ≡ length (decimal_text n) }
{
    let mut count = 1;
    let mut rest = n;
    while 10 <= rest {
        rest /= 10;
        count += 1;
    }
    count
}

impl Text<'_> {
    // The last two digits of n, each in a store of its own, which is faster than to copy them from an array.
    #[inline(always)]
    #[tactic(auto, unfolding(crate::specs::Text::digits))]
    fn write_pair(&mut self, n: u16)
        requires { self.old.at + 2 ≤ length self.old.out.now }
        ensures { Adds self.old (digits 2 n) self.new }
    {
        let at = self.at;
        self.out[at] = b'0' + (n / 10 % 10) as u8;
        self.out[at + 1] = b'0' + (n % 10) as u8;
        self.at = at + 2;
    }

    // A number of one digit or two, that there is room for.
    #[inline(always)]
    fn write_few(&mut self, n: u16)
        requires few { n < 100 }
        requires room { self.old.at + length (decimal_text n) ≤ length self.old.out.now }
        ensures { Adds self.old (decimal_text n) self.new }
    {
        if n < 10 {
            self.write([b'0' + n as u8]);
        } else {
            self.write_pair(n);
        }
    }

    // A number of up to four digits, that there is room for.
    #[inline(always)]
    fn write_short(&mut self, n: u16)
        requires few { n < 10000 }
        requires room { self.old.at + length (decimal_text n) ≤ length self.old.out.now }
        ensures { Adds self.old (decimal_text n) self.new }
    {
        if n < 100 {
            self.write_few(n);
        } else {
            self.write_few(n / 100);
            self.write_pair(n % 100);
        }
    }

    // A number that there is room for. Always within its caller: a line of the trace program takes fewer instructions so.
    #[inline(always)]
    #[cycle(decimal)]
    pub(crate) fn write_decimal(&mut self, n: u64)
        requires { self.old.at + length (decimal_text n) ≤ length self.old.out.now }
        ensures { Adds self.old (decimal_text n) self.new }
    {
        if n < 10000 {
            self.write_short(n as u16);
        } else if n < 100000000 {
            let low = (n as u32 % 10000) as u16;
            self.write_short((n as u32 / 10000) as u16);
            self.write_pair(low / 100);
            self.write_pair(low % 100);
        } else {
            self.write_long(n);
        }
    }

    // A number of more digits than most have. Apart, since a function that calls itself saves registers at each call.
    #[cold]
    #[inline(never)]
    #[cycle(decimal)]
    fn write_long(&mut self, n: u64)
        requires long { 100 ≤ n }
        requires room { self.old.at + length (decimal_text n) ≤ length self.old.out.now }
        ensures { Adds self.old (decimal_text n) self.new }
    {
        self.write_decimal(n / 100);
        self.write_pair((n % 100) as u16);
    }

    // Near the buffer's end: the number is put aside, and as much of it into the buffer as there is room for.
    #[cold]
    #[inline(never)]
    #[tactic(auto, using(crate::proofs::Numerals::decimal_most))]
    fn put_aside(&mut self, n: u64)
        ensures { Adds self.old (decimal_text n) self.new }
    {
        let mut room = [0u8; MOST_DIGITS];
        let mut aside = Text {
            out: &mut room,
            at: 0,
        };
        aside.write_decimal(n);
        let used = aside.at;
        self.put_bytes(&room[..used]);
    }

    // A decimal number.
    #[tactic(auto, using(crate::proofs::Numerals::decimal_most))]
    pub fn put_decimal(&mut self, n: u64)
        ensures { Adds self.old (decimal_text n) self.new }
    {
        if self.is_past() {
            self.skip(places(n));
        } else if self.has_room(MOST_DIGITS) {
            self.write_decimal(n);
        } else {
            self.put_aside(n);
        }
    }
}

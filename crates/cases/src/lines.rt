// A line of the script: a name, and hexadecimal numbers after it.
ghost use Rattle.std.specs.Prelude.{◌<◌, IfSome};

use crate::verb::Verb;

// What a heading begins with, as a number whose byte it is.
const HEADING: u64 = b'#' as u64;

// A line as far as it is read: the letters of its name, its numbers from 1 on, how many there are, whether a space came
// last, and whether something in it is none of ours.
#[derive(Clone, Copy, Default)]
struct Reading {
    letters: u64,
    numbers: [u16; 8],
    count: usize,
    gap: bool,
    nonsense: bool,
}

// The numbers of a whole line. Those that it leaves out are 0.
#[derive(Clone, Copy)]
pub(crate) struct Numbers {
    pub a: u16,
    pub b: u16,
    pub c: u16,
    pub d: u16,
    pub e: u16,
    pub f: u16,
    pub count: usize,
}

#[derive(Clone, Copy)]
pub(crate) enum Line {
    Heading,
    Case(Verb, Numbers),
    NotUnderstood,
}

// A digit's value, where the byte is one of `0` to `9` and `A` to `F`.
fn digit(b: u8) -> Option<u16>
    ensures { IfSome result (λ value. value < 16) }
{
    match b {
        b'0'..=b'9' => Some(u16::from(b - b'0')),
        b'A'..=b'F' => Some(u16::from(b - b'A' + 10)),
        _ => None,
    }
}

impl Reading {
    // The line with a byte more. Of a name's letters the last eight are kept: no name of ours has as many. A number has
    // up to four digits, and there are up to six.
    fn longer(self, b: u8) -> Reading {
        let mut line = self;
        if line.letters == HEADING {
            return line;
        }
        if b == b' ' {
            line.gap = line.letters != 0;
            return line;
        }
        if line.gap {
            line.count = line.count % 7 + 1;
            line.gap = false;
        }
        if line.count == 0 {
            line.letters = (line.letters << 8) | u64::from(b);
            return line;
        }
        line.with_digit(b)
    }

    fn with_digit(self, b: u8) -> Reading {
        let mut line = self;
        let k = line.count % 8;
        let number = line.numbers[k];
        match digit(b) {
            Some(value) if k < 7 && number < 0x1000 => line.numbers[k] = number * 16 + value,
            _ => line.nonsense = true,
        }
        line
    }
}

impl Line {
    pub(crate) fn read(text: &[u8]) -> Line {
        let mut line = Reading::default();
        for &b in text {
            line = line.longer(b);
        }
        if line.letters == HEADING {
            return Line::Heading;
        }
        let [_, a, b, c, d, e, f, _] = line.numbers;
        let numbers = Numbers {
            a,
            b,
            c,
            d,
            e,
            f,
            count: line.count,
        };
        match Verb::spelled(line.letters) {
            Some(verb) if !line.nonsense => Line::Case(verb, numbers),
            _ => Line::NotUnderstood,
        }
    }
}

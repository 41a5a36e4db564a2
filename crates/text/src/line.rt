// Lines, and the columns of a record's line.
ghost use Rattle.std.specs.Prelude.{◌≡◌};
ghost use Rattle.text.specs.Text.{Adds, decimal_text, newline};
ghost use Rattle.text.specs.Line.{column, accepted_columns, refused_columns, columns_of, named_line};

use crate::decimal::places;
use crate::table::HexTable;
use crate::text::Text;
use message::answer::Answer;

// The column of a number takes at most so many bytes.
const MOST_NUMBER: usize = 21;

// The columns of an accepted record take at most so many bytes.
const MOST_COLUMNS: usize = 50;

impl Text<'_> {
    pub fn put_newline(&mut self)
        ensures { Adds self.old newline self.new }
    {
        self.put_byte(b'\n');
    }

    // A column of a number.
    pub fn put_number(&mut self, n: u64)
        ensures { Adds self.old (column (decimal_text n)) self.new }
    {
        if self.is_past() {
            self.skip(1 + places(n));
        } else if self.has_room(MOST_NUMBER) {
            self.write([b' ']);
            self.write_decimal(n);
        } else {
            self.put_byte(b' ');
            self.put_decimal(n);
        }
    }

    fn put_refused(&mut self, refusal: u16)
        ensures { Adds self.old (refused_columns refusal) self.new }
    {
        self.put_number(u64::from(refusal));
        self.put_newline();
    }

    // Near the buffer's end: the columns are put aside, and as much of them into the buffer as there is room for.
    #[inline(always)]
    fn put_accepted(&mut self, a: Answer, table: &HexTable)
        requires { a.number ≡ 0 }
        ensures { Adds self.old (accepted_columns a) self.new }
    {
        let mut room = [0u8; MOST_COLUMNS];
        let mut aside = Text {
            out: &mut room,
            at: 0,
        };
        aside.write_accepted(a, table);
        let used = aside.at;
        self.put_bytes(&room[..used]);
    }

    // The columns of a record's line after its place, accepted or refused.
    pub fn put_columns(&mut self, a: Answer, table: &HexTable)
        ensures { Adds self.old (columns_of a) self.new }
    {
        if a.number != 0 {
            self.put_refused(a.number);
        } else if self.is_past() {
            self.skip(29 + places(u64::from(a.sent)));
        } else if self.has_room(MOST_COLUMNS) {
            self.write_accepted(a, table);
        } else {
            self.put_accepted(a, table);
        }
    }

    // A name and a number.
    pub fn put_named(&mut self, name: &[u8], n: u64)
        ensures { Adds self.old (named_line name.now n) self.new }
    {
        self.put_bytes(name);
        self.put_number(n);
        self.put_newline();
    }
}

// The columns of an accepted record's line, where there is room for them: no byte is tested to lie in the buffer.
ghost use Rattle.std.specs.Prelude.{◌+◌, ◌≤◌, ◌≡◌, length};
ghost use Rattle.text.specs.Text.{Adds, hex_text, decimal_text};
ghost use Rattle.text.specs.Line.{column, status_text, three_words, accepted_columns};

use crate::table::HexTable;
use crate::text::Text;
use message::answer::Answer;

impl Text<'_> {
    // A column of a stored word.
    #[inline(always)]
    fn write_word(&mut self, w: u16, table: &HexTable)
        requires { self.old.at + 5 ≤ length self.old.out.now }
        ensures { Adds self.old (column (hex_text w)) self.new }
    {
        let (first, second) = table.pair((w / 256) as u8);
        let (third, fourth) = table.pair((w % 256) as u8);
        self.write([b' ', first, second, third, fourth]);
    }

    // A column of a number.
    #[inline(always)]
    #[tactic(auto, using(crate::proofs::Numerals::decimal_most))]
    fn write_number(&mut self, n: u64)
        requires { self.old.at + 21 ≤ length self.old.out.now }
        ensures { Adds self.old (column (decimal_text n)) self.new }
    {
        self.write([b' ']);
        self.write_decimal(n);
    }

    // The status column: the word, or "none" where none was sent.
    #[inline(always)]
    #[tactic(auto, unfolding(crate::specs::Line::status_text, crate::specs::Line::none_text))]
    fn write_status(&mut self, a: Answer, table: &HexTable)
        requires { self.old.at + 5 ≤ length self.old.out.now }
        ensures { Adds self.old (column (status_text a.answered a.status)) self.new }
    {
        if a.answered {
            self.write_word(a.status, table);
        } else {
            self.write(*b" none");
        }
    }

    // The words before the status column.
    #[inline(always)]
    #[tactic(auto, using(crate::proofs::Runs::length_hex))]
    fn write_three(&mut self, a: Answer, table: &HexTable)
        requires { self.old.at + 15 ≤ length self.old.out.now }
        ensures { Adds self.old (three_words a.block_status a.before a.after) self.new }
    {
        self.write_word(a.block_status, table);
        self.write_word(a.before, table);
        self.write_word(a.after, table);
    }

    // All of them take 50 bytes at most. The number of an accepted record is 0.
    #[tactic(auto, using(crate::proofs::Runs::length_hex, crate::proofs::Lines::length_three, crate::proofs::Lines::length_status, crate::proofs::Numerals::decimal_most))]
    #[inline(always)]
    pub(crate) fn write_accepted(&mut self, a: Answer, table: &HexTable)
        requires room { self.old.at + 50 ≤ length self.old.out.now }
        requires accepted { a.number ≡ 0 }
        ensures { Adds self.old (accepted_columns a) self.new }
    {
        self.write(*b" 0");
        self.write_three(a, table);
        self.write_status(a, table);
        self.write_number(u64::from(a.sent));
        self.write_word(a.interrupt, table);
        self.write([b'\n']);
    }
}

// The parts of a line: each is added to a line that has room for it. A number has at most ten digits, so it takes 11 bytes with the byte before it, what
// an input sent takes 44, and what all 32 sent 1,408. `write!` would not do here: it says what it wrote only where it answers `Ok`, and never that it does.
ghost use Rattle.std.specs.Prelude.{◌≡◌, [], ◌∷◌, ◌++◌, ◌+◌, ◌≤◌, length};
ghost use Rattle.card.specs.Paper.{ports};
ghost use Rattle.slot.specs.Answers.{report_of};
ghost use Rattle.lines.specs.Paper.{decimal, field, sending, sendings};
ghost use Rattle.lines.specs.Parts.{sent};
ghost use Rattle.lines.specs.Text.{room, text_of, len_of, Adds};

use crate::Line;
use arrayvec::ArrayString;
use card::{Card, In, Out};
use itoa::Buffer;
use slot::Report;

impl Line {
    // A line that starts with this letter.
    pub(crate) fn starting(letter: &str) -> Line
        requires { length letter.now ≤ room }
        ensures { text_of result ≡ letter.now }
    {
        let mut text = ArrayString::new();
        text.push_str(letter);
        Line { text }
    }

    // The line feed that ends a line.
    pub(crate) fn end(&mut self)
        requires { len_of self.old + 1 ≤ room }
        ensures { Adds self.old self.new (10 ∷ []) 1 }
    {
        self.mark("\n");
    }

    // A space and a number.
    pub(crate) fn field(&mut self, x: u32)
        requires { len_of self.old + 11 ≤ room }
        ensures { Adds self.old self.new (field x) 11 }
    {
        self.number(" ", x);
    }

    // What each matched input sent, in order.
    pub(crate) fn sendings(&mut self, report: &Report)
        requires { len_of self.old + 1408 ≤ room }
        ensures { Adds self.old self.new (sendings ports (report_of report.now)) 1408 }
    {
        for (k, partner) in report.partners.iter().enumerate() {
            self.sent(In(k as u16), *partner, report.cells[k], report.waits[k]);
        }
    }

    // What one input sent: nothing where its partner is none.
    #[tactic(auto, using(crate::specs::Parts::unmatched, crate::specs::Parts::matched))]
    fn sent(&mut self, input: In, output: Out, cell: u32, wait: u32)
        requires { len_of self.old + 44 ≤ room }
        ensures { Adds self.old self.new (sent input.0 output.0 cell wait) 44 }
    {
        if output.0 == Card::NONE {
            return;
        }
        self.sending(input, output, cell, wait);
    }

    // A matched input, its output, the cell and its wait.
    fn sending(&mut self, input: In, output: Out, cell: u32, wait: u32)
        requires { len_of self.old + 44 ≤ room }
        ensures { Adds self.old self.new (sending input.0 output.0 cell wait) 44 }
    {
        self.number(" ", u32::from(input.0));
        self.number(">", u32::from(output.0));
        self.number(":", cell);
        self.number("/", wait);
    }

    // A number, with this byte before it.
    fn number(&mut self, before: &str, x: u32)
        requires one { length before.now ≤ 1 }
        requires fits { len_of self.old + 11 ≤ room }
        ensures { Adds self.old self.new (before.now ++ decimal x) 11 }
    {
        self.mark(before);
        self.digits(x);
    }

    // A number's digits.
    #[tactic(auto, using(crate::specs::Text::adds), unfolding(crate::specs::Paper::digits))]
    fn digits(&mut self, x: u32)
        requires { len_of self.old + 10 ≤ room }
        ensures { Adds self.old self.new (decimal x) 10 }
    {
        let mut digits = Buffer::new();
        self.text.push_str(digits.format(x));
    }

    // One byte.
    #[tactic(auto, using(crate::specs::Text::adds))]
    fn mark(&mut self, byte: &str)
        requires one { length byte.now ≤ 1 }
        requires fits { len_of self.old + 1 ≤ room }
        ensures { Adds self.old self.new byte.now 1 }
    {
        self.text.push_str(byte);
    }
}

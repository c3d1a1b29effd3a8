// The lines of the replay, made in memory. A line has room for 1,536 bytes, and none is longer than 1,454.
#![tactic(auto)]

mod text;

ghost use Rattle.std.specs.Prelude.{◌≡◌};
ghost use Rattle.slot.specs.Answers.{report_of};
ghost use Rattle.lines.specs.Paper.{slot_line, last_line, refusal_line};
ghost use Rattle.lines.specs.Text.{text_of};

use arrayvec::ArrayString;
use card::Counters;
use slot::Report;

// How many bytes a line has room for: its letter, four numbers and 32 sendings of at most 44 bytes each, and the line feed take 1,454.
const ROOM: usize = 1536;

// A line.
#[derive(Clone, Copy)]
pub struct Line {
    pub text: ArrayString<ROOM>,
}

// What a slot did.
pub fn slot_line(slot: u32, report: Report) -> Line
    ensures { text_of result ≡ slot_line slot (report_of report) }
{
    let mut line = Line::starting("S");
    line.field(slot);
    line.field(report.size);
    line.field(report.weight);
    line.field(report.dropped);
    line.sendings(&report);
    line.end();
    line
}

// The counters after the last slot, and the cells that wait.
pub fn last_line(counters: Counters, waiting: u32) -> Line
    ensures { text_of result ≡ last_line counters waiting }
{
    let mut line = Line::starting("T");
    line.field(counters.offered);
    line.field(counters.stored);
    line.field(counters.dropped);
    line.field(counters.departed);
    line.field(waiting);
    line.end();
    line
}

// Why a log is refused, by its number, and in which record. Any number is printed, so it takes no Refusal.
pub fn refusal_line(refusal: u32, number: u32) -> Line
    ensures { text_of result ≡ refusal_line refusal number }
{
    let mut line = Line::starting("R");
    line.field(refusal);
    line.field(number);
    line.end();
    line
}

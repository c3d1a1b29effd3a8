// The replay of a log: checked whole, run on a fresh card, each slot printed as one line. Thin: what is checked, run and printed is proved in `slotlog`,
// `slot` and `lines`.
#![tactic(auto)]

ghost use Rattle.std.specs.Prelude.{◌≡◌, ◌≤◌, OnOk, MatchResult};
ghost use Rattle.std.specs.Io.KnownBytes.{Appends};
ghost use Rattle.card.specs.Paper.{number_of};
ghost use Rattle.slot.specs.Paper.{room};
ghost use Rattle.slot.specs.Answers.{state_of};
ghost use Rattle.lines.specs.Paper.{slot_line};
ghost use Rattle.lines.specs.Text.{text_of};
ghost use Rattle.playback.specs.Paper.{replay_refusal};
ghost use Rattle.playback.specs.Printed.{step, played, begun, ended, replay_text};
ghost use Rattle.playback.specs.Room.{places_of};
ghost use Rattle.playback.specs.Outcome.{Runs, Stops};

use card::{Arrivals, Card, Refusal};
use lines::Line;
use slot::{Record, Report};
use slotlog::{Checked, Fault, Slot};
use std::io;
use std::io::{Print, Write};

// The room of the replay: the most places that a card may have.
const ROOM: usize = 2048;

// What came of a replay: why the log is refused, if it is, and the first write that failed.
#[derive(Drop)]
pub struct Replayed {
    pub outcome: Result<(), Refusal>,
    pub written: io::Result<()>,
}

// Prints the replay of a log, or the one line that says why it is refused. A line that cannot be written is lost.
pub fn replay<P: Print>(rt: &P, log: &[u8]) -> Result<(), Refusal>
    ensures { number_of result ≡ replay_refusal log.now }
{
    let mut out = io::writer(rt);
    let replayed = replay_to(&mut out, log);
    replayed.outcome
}

// The same to any writer, with what became of the writes. A write that fails stops nothing: the lines behind it are tried.
pub fn replay_to<W: Write>(out: &mut W, log: &[u8]) -> Replayed
    ensures outcome { number_of result.outcome ≡ replay_refusal log.now }
    ensures text { OnOk result.written (Appends (W.contents out.old) (W.contents out.new) (replay_text log.now)) }
{
    match accepted(log) {
        Ok((checked, places)) => Replayed {
            outcome: Ok(()),
            written: run(out, log, checked, places),
        },
        Err(fault) => Replayed {
            outcome: Err(fault.refusal),
            written: print(
                out,
                lines::refusal_line(u32::from(fault.refusal), fault.record),
            ),
        },
    }
}

// The whole-log check, and how many places the card has, if there is room for them: else it is refused by 2, in no record.
#[tactic(auto, using(crate::proofs::Outcomes::check_stops))]
fn accepted(log: &[u8]) -> Result<(Checked, usize), Fault>
    ensures { MatchResult result (λ run. Runs log.now run.0 run.1) (Stops log.now) }
{
    let checked = slotlog::check(log)?;
    let places = places(checked.card);
    let larger = ROOM < places;
    if larger {
        return Err(Fault::from(Refusal::Length));
    }
    Ok((checked, places))
}

// Runs every slot on a fresh card with so many places, and prints the counters last.
fn run<W: Write>(out: &mut W, log: &[u8], checked: Checked, places: usize) -> io::Result<()>
    requires fits { places ≤ 2048 }
    requires whole { places ≡ room checked.card }
    ensures { OnOk result (Appends (W.contents out.old) (W.contents out.new) (ended (played log.now (begun checked.card) checked.count))) }
{
    // Two lists, as the slot takes them.
    let (mut cells, mut stamps) = ([0; ROOM], [0; ROOM]);
    let cells = &mut cells[..places];
    let stamps = &mut stamps[..places];
    let mut record = Record::fresh(checked.card, cells, stamps).unwrap_or(Record::empty());
    let mut written = Ok(());
    // A slot is read by its number, which document 01's `read` takes.
    for k in 0..checked.count {
        let (next, line) = step(log, k, record, cells, stamps);
        record = next;
        written = written.and(print(out, line));
    }
    let last = lines::last_line(record.counters, record.waiting());
    written.and(print(out, last))
}

// One slot of the log, and its line. What the log's check has let through is not refused here.
fn step(log: &[u8], k: u32, kept: Record, cells: &mut [u32], stamps: &mut [u32]) -> (Record, Line)
    ensures state { state_of result.0 cells.new stamps.new ≡ (step log.now k (state_of kept cells.old stamps.old)).state }
    ensures line { text_of result.1 ≡ slot_line kept.slot (step log.now k (state_of kept cells.old stamps.old)).report }
{
    let nothing = Slot {
        hold: 0,
        arrivals: Arrivals::none(),
    };
    let given = slotlog::read(log, k).unwrap_or(nothing);
    let stepped = kept.slot(given.hold, given.arrivals, cells, stamps);
    let report = stepped.outcome.unwrap_or(Report::none());
    (stepped.record, lines::slot_line(kept.slot, report))
}

// Writes a line at once.
fn print<W: Write>(out: &mut W, line: Line) -> io::Result<()>
    ensures { OnOk result (Appends (W.contents out.old) (W.contents out.new) (text_of line)) }
{
    out.write_all(line.text.as_bytes())
}

// How many places a card has; none where it is not within its limits, as `places_of` has it, of which the room's laws speak.
fn places(card: Card) -> usize
    ensures { result ≡ places_of card }
{
    if !card.fits() {
        return 0;
    }
    card.m as usize * card.n as usize * card.d as usize
}

// The slot log: what arrives at a card, slot by slot, as bytes. It is checked whole, read one slot at a time, and written.
// All numbers are little endian. A record has a slot's hold (4 bytes) and, for each of M inputs, an output (2) and a cell (4). Behind the last record
// stands the trailer: the length back to the first record (4), M, N, D (2 each), the count of slots (4), and the bytes 4C 50. What stands before the
// first record is a banner and not read. A log has at most 32,016 bytes.
// Each function takes any arguments whatever: what lies outside its limit gets its refusal, in document 01's order. What was written passes the
// check and is read back as it was given, and a log without a banner that passes, read and written again, is the same bytes: specs/RoundTrip.antt.
#![tactic(auto)]

mod reading;
mod records;
mod writing;

ghost use Rattle.std.specs.Prelude.{◌≡◌};
ghost use Rattle.slotlog.specs.Paper.{check, read, write};
ghost use Rattle.slotlog.specs.Answers.{checked_of, read_of, written_of};

use card::{Arrivals, Card, Refusal};
use reading::Head;
use writing::Given;

// What the whole-log check answers: the card, how many slots there are, and where the first record starts.
#[derive(Clone, Copy)]
pub struct Checked {
    pub card: Card,
    pub count: u32,
    pub first: u32,
}

// Why a log is refused, and the record in which the fault lies, counted from 1; 0 where it lies in no record, as document 01 and C number it.
#[derive(Clone, Copy, Debug, PartialEq, Eq)]
pub struct Fault {
    pub refusal: Refusal,
    pub record: u32,
}

// One slot of a log.
#[derive(Clone, Copy)]
pub struct Slot {
    pub hold: u32,
    pub arrivals: Arrivals,
}

// A refusal of the head matter lies in no record.
impl From<Refusal> for Fault {
    ghost use Rattle.slotlog.specs.Answers.{in_no_record};

    ghost from_gives = { λ refusal fault. fault ≡ in_no_record refusal };

    fn from(refusal: Refusal) -> Fault {
        Fault { refusal, record: 0 }
    }
}

// The whole-log check: refusals 8, 1, 9, then the records in order, 3 before 4 in each.
pub fn check(log: &[u8]) -> Result<Checked, Fault>
    ensures { checked_of result ≡ check log.now }
{
    let head = Head::of(log)?;
    records::first_fault(head.card, head.count, |k| head.slot(k))?;
    Ok(Checked {
        card: head.card,
        count: head.count,
        first: head.first,
    })
}

// The slot numbered `slot`, from 0: refusals 8, 1, 9, 11, then 3 and 4 of that record.
pub fn read(log: &[u8], slot: u32) -> Result<Slot, Refusal>
    ensures { read_of result ≡ read log.now slot }
{
    let head = Head::of(log)?;
    if slot >= head.count {
        return Err(Refusal::Slot);
    }
    let found = head.slot(slot);
    found.check(head.card)?;
    Ok(found)
}

// Writes a log of as many slots as there are holds, and answers its length: refusals 1, 2, 8, then 3 and 4 by record, then 10. The bytes behind the
// log stay as they are.
pub fn write(
    card: Card,
    holds: &[u32],
    outputs: &[u16],
    cells: &[u32],
    buffer: &mut [u8],
) -> Result<u32, Refusal>
    ensures { written_of result buffer.new ≡ write card.m card.n card.d holds.now outputs.now cells.now buffer.old }
{
    let given = Given::new(card, holds, outputs, cells)?;
    given.check_records()?;
    given.check_room(buffer.len())?;
    Ok(given.put(buffer))
}

// The writer: its refusals in document 01's order, and the bytes of a log, each part put where the one before it ends.
ghost use Rattle.std.specs.Prelude.{◌≡◌, ◌+◌, ◌*◌, ◌≤◌, ◌<◌, length, IfOk};
ghost use Rattle.card.specs.Paper.{number_of};
ghost use Rattle.slotlog.specs.Paper.{record_length, longest, slot_bytes};
ghost use Rattle.slotlog.specs.Put.{Put};
ghost use Rattle.slotlog.specs.Records.{bytes_of_record};
ghost use Rattle.slotlog.specs.Slots.{slot_from};
ghost use Rattle.slotlog.specs.Given.{Lists, Filled};
ghost use Rattle.slotlog.specs.WriteRefusals.{size_refusal};

use super::records;
use super::records::{LONGEST, MARK, TRAILER};
use crate::Slot;
use card::{Card, Refusal};

// What is to be written, as C lends it: M outputs and M cells for each hold, and no more slots than a log has.
#[derive(Clone, Copy)]
pub struct Given<'a> {
    card: Card,
    holds: &'a [u32],
    outputs: &'a [u16],
    cells: &'a [u32],
    pub ghost lists: { Lists card.m card.n card.d holds.now outputs.now cells.now },
}

impl<'a> Given<'a> {
    ghost use Rattle.slotlog.specs.Writer.{slot_of, records_refusal, room_refusal, records_length, log_length, trailer_of, log_of};

    // Refusals 1, 2 and 8, by the card and the lengths of the lists.
    #[tactic(auto, using(crate::specs::WriteRefusals::full_is, crate::specs::WriteRefusals::too_long, crate::specs::WriteRefusals::short_enough), unfolding(crate::specs::WriteRefusals::size_refusal))]
    pub fn new(
        card: Card,
        holds: &'a [u32],
        outputs: &'a [u16],
        cells: &'a [u32],
    ) -> Result<Given<'a>, Refusal>
        ensures refusal { number_of result ≡ size_refusal card.m card.n card.d (length holds.now) (length outputs.now) (length cells.now) }
        ensures same { IfOk result (λ given. (given.card ≡ card) × (given.holds.now ≡ holds.now) × (given.outputs.now ≡ outputs.now) × (given.cells.now ≡ cells.now)) }
    {
        if !card.fits() {
            return Err(Refusal::Size);
        }
        let slots = holds.len();
        let full = slots.checked_mul(card.m as usize);
        if full != Some(outputs.len()) || full != Some(cells.len()) {
            return Err(Refusal::Length);
        }
        if (LONGEST - TRAILER) / records::record_length(card.m) < slots {
            return Err(Refusal::Log);
        }
        Ok(Given {
            card,
            holds,
            outputs,
            cells,
        })
    }

    // Refusals 3 and 4, of the first record that has one.
    pub fn check_records(self) -> Result<(), Refusal>
        ensures { number_of result ≡ records_refusal self.entry }
    {
        let count = self.holds.len() as u32;
        let found = records::first_fault(self.card, count, |k| self.slot(k as usize));
        found.map_err(|fault| fault.refusal)
    }

    // Refusal 10: whether the log has room.
    #[tactic(auto, unfolding(crate::specs::WriteRefusals::room_refusal))]
    pub fn check_room(self, room: usize) -> Result<(), Refusal>
        ensures { number_of result ≡ room_refusal self.entry room }
    {
        if room < self.records_length() + TRAILER {
            return Err(Refusal::Buffer);
        }
        Ok(())
    }

    // The log, at the front of the buffer; answers its length.
    pub fn put(self, buffer: &mut [u8]) -> u32
        requires { log_length self ≤ length buffer.old }
        ensures { Filled (log_of self.entry) buffer.old buffer.new result }
    {
        let size = records::record_length(self.card.m);
        // By number: what is written through a part that `chunks_exact_mut` lends is not known of the buffer afterwards.
        for k in 0..self.holds.len() {
            self.put_slot(k, buffer, k * size);
        }
        self.put_trailer(buffer);
        (self.records_length() + TRAILER) as u32
    }

    // The bytes of all records.
    fn records_length(self) -> usize
        ensures { (result ≡ records_length self.entry) × (log_length self.entry ≤ longest) }
    {
        self.holds.len() * records::record_length(self.card.m)
    }

    // The trailer behind the records. They begin at the front, so that its place is the length back to them.
    fn put_trailer(self, buffer: &mut [u8])
        requires { log_length self ≤ length buffer.old }
        ensures { Put buffer.old (records_length self.entry) (trailer_of self.entry) buffer.new }
    {
        let Given { card, holds, .. } = self;
        let back = self.records_length();
        put(buffer, back, (back as u32).to_le_bytes());
        put(buffer, back + 4, (card.m as u16).to_le_bytes());
        put(buffer, back + 6, (card.n as u16).to_le_bytes());
        put(buffer, back + 8, (card.d as u16).to_le_bytes());
        put(buffer, back + 10, (holds.len() as u32).to_le_bytes());
        put(buffer, back + 14, MARK);
    }

    // The record of the slot numbered k, at a place: from the lists as they were lent, with no Slot in between. docs/LOOK-BACK.md, d4, has the times.
    fn put_slot(self, k: usize, buffer: &mut [u8], place: usize)
        requires there { k < length self.holds.now }
        requires room { place + record_length self.card.m ≤ length buffer.old }
        ensures { Put buffer.old place (slot_bytes self.entry.card.m (slot_of self.entry k)) buffer.new }
    {
        let m = self.card.m as usize;
        let from = k * m;
        let outputs = &self.outputs[from..from + m];
        let cells = &self.cells[from..from + m];
        put_record(buffer, place, self.holds[k], outputs, cells);
    }

    // The slot numbered k, from 0.
    fn slot(self, k: usize) -> Slot
        requires { k < length self.holds.now }
        ensures { slot_from result ≡ slot_of self.entry k }
    {
        let m = self.card.m;
        let from = k * m as usize;
        let outputs = self.outputs;
        let cells = self.cells;
        Slot {
            hold: self.holds[k],
            arrivals: records::arrivals_of(m, |i| (outputs[from + i], cells[from + i])),
        }
    }
}

// A record: a slot's hold, then what arrives at each input.
fn put_record(buffer: &mut [u8], place: usize, hold: u32, outputs: &[u16], cells: &[u32])
    requires both { length cells.now ≡ length outputs.now }
    requires room { place + record_length (length outputs.now) ≤ length buffer.old }
    ensures { Put buffer.old place (bytes_of_record hold outputs.now cells.now) buffer.new }
{
    put(buffer, place, hold.to_le_bytes());
    for (i, (output, cell)) in outputs.iter().zip(cells).enumerate() {
        put(buffer, place + (4 + 6 * i), output.to_le_bytes());
        put(buffer, place + (6 + 6 * i), cell.to_le_bytes());
    }
}

// N bytes, from a place on.
#[tactic(auto, using(crate::specs::Put::put_part))]
fn put<const N: usize>(buffer: &mut [u8], place: usize, bytes: [u8; N])
    requires { place + N ≤ length buffer.old }
    ensures { Put buffer.old place bytes.entry buffer.new }
{
    buffer[place..place + N].copy_from_slice(&bytes);
}

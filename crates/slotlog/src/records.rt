// What reading and writing share: the lengths of a log's parts, its last bytes, the arrivals of a slot, and the refusals of a record.
ghost use Rattle.std.specs.Prelude.{◌≡◌, ℕ, ◌<◌, ◌≤◌};
ghost use Rattle.card.specs.Paper.{number_of};
ghost use Rattle.slotlog.specs.Paper.{record_length, arrivals_of, slot_refusal, first_fault};
ghost use Rattle.slotlog.specs.Arrived.{Gives};
ghost use Rattle.slotlog.specs.Paper as paper;
ghost use Rattle.slotlog.specs.Slots.{slot_from, GivesSlots};
ghost use Rattle.slotlog.specs.Reading.{fault_of};

use crate::{Fault, Slot};
use card::{Arrivals, Card, Out, Refusal};

// So many bytes has a trailer.
pub const TRAILER: usize = 16;

// At most so many bytes has a log, its banner included.
pub const LONGEST: usize = 32016;

// The last two bytes of a log: 4C 50.
pub const MARK: [u8; 2] = [b'L', b'P'];

// The bytes of a record: 4 of the hold, and 6 for each input.
pub fn record_length(m: u32) -> usize
    ensures { result ≡ record_length m }
{
    4 + 6 * (m as usize)
}

// The arrivals of M inputs, each asked for by the input's number. M goes alone, as a slot has no card.
pub fn arrivals_of<F: Fn(usize) -> (u16, u32)>(m: u32, at: F) -> Arrivals
    requires few { m ≤ 32 }
    requires callable { (i : ℕ) → i < m → F.pre at i }
    ensures { (f g : ℕ → ℕ) → Gives (F.post at) m f g → result ≡ arrivals_of m f g }
{
    let mut arrivals = Arrivals::none();
    // By number: one answer fills a place in each of the two lists.
    for i in 0..m as usize {
        let (output, cell) = at(i);
        arrivals.outputs[i] = Out(output);
        arrivals.cells[i] = cell;
    }
    arrivals
}

// The first fault among so many records, each asked for by its number, from 0.
pub fn first_fault<F: Fn(u32) -> Slot>(card: Card, count: u32, slot: F) -> Result<(), Fault>
    requires { (k : ℕ) → k < count → F.pre slot k }
    ensures { (f : ℕ → paper.Slot) → GivesSlots (F.post slot) count f → fault_of result ≡ first_fault count 0 (λ k. slot_refusal card.m card.n (f k)) }
{
    // By number: it is what `slot` takes, and what a fault names.
    for k in 0..count {
        if let Err(refusal) = slot(k).check(card) {
            return Err(Fault {
                refusal,
                record: k + 1,
            });
        }
    }
    Ok(())
}

impl Slot {
    // Refusals 3 and 4 of one record.
    #[tactic(auto, unfolding(crate::specs::Paper::slot_refusal))]
    pub(crate) fn check(&self, card: Card) -> Result<(), Refusal>
        ensures { number_of result ≡ slot_refusal card.m card.n (slot_from self.now) }
    {
        if !card::names_below(card.n, self.hold) {
            return Err(Refusal::Hold);
        }
        if !self.arrivals.fit(card.m, card.n) {
            return Err(Refusal::Arrival);
        }
        Ok(())
    }
}

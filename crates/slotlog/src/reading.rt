// A slot log, read: its head matter, its records, and the refusals that checking and reading give, in document 01's order.
ghost use Rattle.std.specs.Prelude.{◌≡◌, ◌+◌, ◌*◌, ◌<◌, ◌≤◌, length, take, drop, IfOk};
ghost use Rattle.card.specs.Paper.{number_of};
ghost use Rattle.slotlog.specs.Paper.{number, record_length, slot_at, slot_of, ends_well, head_refusal};
ghost use Rattle.slotlog.specs.Head.{back_holds, Known};
ghost use Rattle.slotlog.specs.Slots.{slot_from};

use super::records;
use super::records::{LONGEST, MARK, TRAILER};
use crate::Slot;
use card::{Card, Refusal};

// A log whose head matter is in order: what its trailer says, and where its first record starts. The invariant speaks of each field, so they are no Checked.
#[derive(Clone, Copy)]
pub struct Head<'a> {
    log: &'a [u8],
    pub card: Card,
    pub count: u32,
    pub first: u32,
    pub ghost known: { Known log.now card.m card.n card.d count first },
}

impl<'a> Head<'a> {
    // Refusals 8, 1, 9: of the head matter, whatever the records hold.
    #[tactic(auto, using(crate::specs::Numbers::read_two, crate::specs::Numbers::read_four, crate::specs::Head::ends_long, crate::specs::Head::ends_short, crate::specs::Head::fits_few), unfolding(crate::specs::Paper::head_refusal, crate::specs::Paper::back_fits))]
    pub fn of(log: &'a [u8]) -> Result<Head<'a>, Refusal>
        ensures refusal { number_of result ≡ head_refusal log.now }
        ensures same { IfOk result (λ head. head.log.now ≡ log.now) }
    {
        if !ends_well(log) {
            return Err(Refusal::Log);
        }
        let place = log.len() - TRAILER;
        let back = u32::from_le_bytes(bytes_at(log, place));
        let card = Card {
            m: u16::from_le_bytes(bytes_at(log, place + 4)) as u32,
            n: u16::from_le_bytes(bytes_at(log, place + 6)) as u32,
            d: u16::from_le_bytes(bytes_at(log, place + 8)) as u32,
        };
        let count = u32::from_le_bytes(bytes_at(log, place + 10));
        if !card.fits() {
            return Err(Refusal::Size);
        }
        let place = place as u32;
        if !back_holds(place, back, card.m, count) {
            return Err(Refusal::Back);
        }
        Ok(Head {
            log,
            card,
            count,
            first: place - back,
        })
    }

    // The slot numbered k, from 0.
    #[tactic(auto, using(crate::specs::Reading::known_few, crate::specs::Reading::known_short, crate::specs::Reading::known_inside, crate::specs::Reading::known_slot))]
    pub fn slot(self, k: u32) -> Slot
        requires { k < self.count }
        ensures { slot_from result ≡ slot_of self.entry.log.now k }
    {
        let m = self.card.m;
        let place = self.first as usize + k as usize * records::record_length(m);
        slot_at(self.log, m, place)
    }
}

// The record that starts at a place. Log and place go together, and not as the part behind the place: specs/Paper reads numbers by their place.
fn slot_at(log: &[u8], m: u32, place: usize) -> Slot
    requires few { m ≤ 32 }
    requires inside { place + record_length m ≤ length log.now }
    ensures { slot_from result ≡ slot_at m log.now place }
{
    Slot {
        hold: u32::from_le_bytes(bytes_at(log, place)),
        arrivals: records::arrivals_of(m, |i| arrival_at(log, place, i)),
    }
}

// What arrives at input i, in the record that starts at a place: an output, then a cell.
#[tactic(auto, using(crate::specs::Numbers::read_two, crate::specs::Numbers::read_four))]
fn arrival_at(log: &[u8], place: usize, i: usize) -> (u16, u32)
    requires few { i < 32 }
    requires inside { place + (10 + 6 * i) ≤ length log.now }
    ensures { (result.0 ≡ number 2 log.now (place + (4 + 6 * i))) × (result.1 ≡ number 4 log.now (place + (6 + 6 * i))) }
{
    let output = bytes_at(log, place + (4 + 6 * i));
    let cell = bytes_at(log, place + (6 + 6 * i));
    (u16::from_le_bytes(output), u32::from_le_bytes(cell))
}

// Refusal 8: the length, then the last two bytes.
#[tactic(auto, using(crate::specs::Head::ends_within, crate::specs::Head::ends_without))]
fn ends_well(log: &[u8]) -> bool
    ensures { result ≡ ends_well log.now }
{
    (TRAILER..=LONGEST).contains(&log.len()) && log.ends_with(&MARK)
}

// Refusal 9, over whole numbers: the product fits 64 bits.
fn back_holds(place: u32, back: u32, m: u32, count: u32) -> bool
    requires { m ≤ 32 }
    ensures { result ≡ back_holds place back m count }
{
    let whole = count as u64 * records::record_length(m) as u64;
    back as u64 == whole && back <= place
}

// The N bytes from a place on.
fn bytes_at<const N: usize>(log: &[u8], place: usize) -> [u8; N]
    requires { place + N ≤ length log.now }
    ensures { result ≡ take N (drop place log.now) }
{
    log[place..place + N].try_into().unwrap()
}

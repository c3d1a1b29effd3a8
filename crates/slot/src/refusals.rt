// The refusals of the fresh card (1, 2) and of the slot (7, 2, 3, 4), in document 01's order.
ghost use Rattle.std.specs.Prelude.{◌≡◌, true};
ghost use Rattle.card.specs.Paper.{number_of, card_fits};
ghost use Rattle.slot.specs.Paper.{room, fresh_refusal, slot_refusal};

use crate::Record;
use card::{Arrivals, Card, Refusal};

// Refusals 1 and 2: of the fresh card.
#[tactic(auto, unfolding(crate::specs::Paper::fresh_refusal))]
pub(crate) fn of_fresh(card: Card, cells: usize, stamps: usize) -> Result<(), Refusal>
    ensures { number_of result ≡ fresh_refusal card cells stamps }
{
    if !card.fits() {
        return Err(Refusal::Size);
    }
    let places = room(card);
    if cells != places || stamps != places {
        return Err(Refusal::Length);
    }
    Ok(())
}

// Refusals 7, 2, 3 and 4: of the slot.
#[tactic(auto, unfolding(crate::specs::Paper::slot_refusal, crate::specs::Paper::well_formed))]
pub(crate) fn of_slot(
    given: &Record,
    hold: u32,
    arrivals: &Arrivals,
    cells: usize,
    stamps: usize,
) -> Result<(), Refusal>
    ensures { number_of result ≡ slot_refusal given.now cells stamps hold arrivals.now }
{
    if !given.well_formed() {
        return Err(Refusal::Record);
    }
    let card = given.card;
    let needed = room(card);
    if cells != needed || stamps != needed {
        return Err(Refusal::Length);
    }
    if !card::names_below(card.n, hold) {
        return Err(Refusal::Hold);
    }
    if !arrivals.fit(card.m, card.n) {
        return Err(Refusal::Arrival);
    }
    Ok(())
}

// How many places a card within its limits has: at most 32 × 32 × 64.
#[tactic(auto, using(card::specs::Limits::sizes_are))]
fn room(card: Card) -> usize
    requires { card_fits card.m card.n card.d ≡ true }
    ensures { result ≡ room card }
{
    card.m as usize * card.n as usize * card.d as usize
}

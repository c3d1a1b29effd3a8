// The card's record, the fresh card, and one slot. Each function takes any arguments whatever: what lies outside its limit gets its refusal, in
// document 01's order, and a refused call changes nothing. Cells and stamps go as two lists, since C lends two: a struct of both would be taken apart at each
// stretch.
#![tactic(auto)]

mod arriving;
mod refusals;
mod sending;
mod step;

ghost use Rattle.std.specs.Prelude.{◌≡◌, ◌<◌, ◌≤◌, true, length};
ghost use Rattle.card.specs.Paper.{card_fits};
ghost use Rattle.masks.specs.Paper.{sum};
ghost use Rattle.matches.specs.Paper.{at};
ghost use Rattle.slot.specs.Paper.{queues, blank, queues_fit, well_formed, fresh, silent, slot};
ghost use Rattle.slot.specs.Answers.{state_of, made_of, report_of, stepped_of};

use card::{Arrivals, Card, Counters, Out, Refusal};
use queue::Queue;

// The card, with the head and count of each queue, the slot number and the counters. Queue (i, j) has index i·N + j. Heads and counts are two lists: the
// match is lent the counts as one, and document 01's record lists the heads and then the counts.
#[derive(Clone, Copy)]
pub struct Record {
    pub card: Card,
    pub heads: [u16; 1024],
    pub counts: [u16; 1024],
    pub slot: u32,
    pub counters: Counters,
}

// What a slot did: for each input its partner, the cell that it sent and how long that cell had waited (none, 0, 0 where it sent nothing); the number of
// pairs and their weight; and the inputs whose arrival was dropped. Partners, cells and waits are three lists, as in the C report.
#[derive(Clone, Copy)]
pub struct Report {
    pub partners: [Out; 32],
    pub cells: [u32; 32],
    pub waits: [u32; 32],
    pub size: u32,
    pub weight: u32,
    pub dropped: u32,
}

// The next record and the slot's report; where refused the given record, and why. Document 01 wants the record back either way, so it stands beside the Result.
#[derive(Clone, Copy)]
pub struct Stepped {
    pub record: Record,
    pub outcome: Result<Report, Refusal>,
}

impl Record {
    // The record of zeros.
    pub fn empty() -> Record
        ensures { result ≡ blank (record { m = 0; n = 0; d = 0 }) }
    {
        Self::of(Card { m: 0, n: 0, d: 0 })
    }

    // The record that has this card and 0 in all else.
    #[tactic(auto, unfolding(crate::specs::Paper::blank))]
    pub fn of(card: Card) -> Record
        ensures { result ≡ blank card }
    {
        Record {
            card,
            heads: [0; 1024],
            counts: [0; 1024],
            slot: 0,
            counters: Counters {
                offered: 0,
                stored: 0,
                dropped: 0,
                departed: 0,
            },
        }
    }

    // Whether the record is well formed: refusal 7.
    #[tactic(auto, unfolding(crate::specs::Paper::well_formed))]
    pub fn well_formed(&self) -> bool
        ensures { result ≡ well_formed self.now }
    {
        self.card.fits() && self.queues_fit()
    }

    // Whether the head and count of each of the 1,024 queues fit.
    #[tactic(auto, unfolding(crate::specs::Paper::queues_fit))]
    fn queues_fit(&self) -> bool
        requires { card_fits self.now.card.m self.now.card.n self.now.card.d ≡ true }
        ensures { result ≡ queues_fit self.now }
    {
        let used = self.card.m as usize * self.card.n as usize;
        let depth = self.card.d;
        // A fold that looks at every queue: `all` takes a branch for each, and 1.1 µs of a slot at 32 × 32 × 2 more than the loop that stood here.
        let queues = self.heads.iter().zip(self.counts.iter());
        queues.enumerate().fold(true, |ok, (k, (&head, &count))| {
            card::also(ok, Queue { head, count }.fits(used, depth, k))
        })
    }

    // Queue k's head and count.
    fn queue(&self, k: usize) -> Queue
        requires { k < queues }
        ensures { result ≡ record { head = at self.now.heads k; count = at self.now.counts k } }
    {
        Queue {
            head: self.heads[k],
            count: self.counts[k],
        }
    }

    // How many cells wait: the sum of the queues' lengths.
    pub fn waiting(&self) -> u32
        ensures { result ≡ sum queues (at self.now.counts) }
    {
        total(&self.counts)
    }

    // A fresh card: refusals 1, 2. Both lists are cleared.
    pub fn fresh(card: Card, cells: &mut [u32], stamps: &mut [u32]) -> Result<Record, Refusal>
        ensures { made_of result cells.new stamps.new ≡ fresh card cells.old stamps.old }
    {
        refusals::of_fresh(card, cells.len(), stamps.len())?;
        cells.fill(0);
        stamps.fill(0);
        Ok(Record::of(card))
    }

    // One slot: refusals 7, 2, 3, 4. The arrivals are taken, the match is made, each matched queue sends its oldest cell, and the slot number grows by 1.
    pub fn slot(
        mut self,
        hold: u32,
        arrivals: Arrivals,
        cells: &mut [u32],
        stamps: &mut [u32],
    ) -> Stepped
        ensures { stepped_of result cells.new stamps.new ≡ slot (state_of self cells.old stamps.old) hold arrivals }
    {
        if let Err(refusal) = refusals::of_slot(&self, hold, &arrivals, cells.len(), stamps.len()) {
            return Stepped {
                record: self,
                outcome: Err(refusal),
            };
        }
        let report = self.accepted(hold, &arrivals, cells, stamps);
        Stepped {
            record: self,
            outcome: Ok(report),
        }
    }
}

impl Report {
    // Nothing sent, and 0 in every other field.
    #[tactic(auto, unfolding(crate::specs::Paper::silent, matches::specs::Paper::tab))]
    pub fn none() -> Report
        ensures { report_of result ≡ silent }
    {
        Report {
            partners: [Out(Card::NONE); 32],
            cells: [0; 32],
            waits: [0; 32],
            size: 0,
            weight: 0,
            dropped: 0,
        }
    }
}

// The sum of at most 1,024 counts, which is below 2 ^ 26.
fn total(counts: &[u16]) -> u32
    requires { length counts.now ≤ queues }
    ensures { result ≡ sum (length counts.now) (at counts.now) }
{
    counts.iter().map(|count| u32::from(*count)).sum()
}

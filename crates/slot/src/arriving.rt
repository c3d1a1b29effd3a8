// Step 1 of a slot: each input's arrival is stored in its queue, or dropped where the queue is full.
ghost use Rattle.std.specs.Prelude.{◌≡◌, ◌+◌, ◌^◌, ◌<◌, ℕ, cond, true};
ghost use Rattle.card.specs.Paper.{arrivals_fit};
ghost use Rattle.slot.specs.Paper.{begun, take_one, take_all};
ghost use Rattle.slot.specs.Answers.{state_of, taking_of};
ghost use Rattle.slot.specs.Ready.{Ready};
ghost use Rattle.slot.specs.Arriving.{Bound};

use crate::Record;
use card::{Arrivals, Card, In, Out};

impl Record {
    // The arrivals of all inputs: the mask of those that were dropped.
    pub(crate) fn take_all(
        &mut self,
        arrivals: &Arrivals,
        cells: &mut [u32],
        stamps: &mut [u32],
    ) -> u32
        requires ready { Ready (state_of self.old cells.old stamps.old) }
        requires arrivals { arrivals_fit self.old.card.m self.old.card.n arrivals.now ≡ true }
        ensures { taking_of self.new result cells.new stamps.new ≡ take_all arrivals.now self.old.card.m (begun (state_of self.old cells.old stamps.old)) }
    {
        let mut dropped = 0;
        let outputs = &arrivals.outputs[..self.card.m as usize];
        for (k, output) in outputs.iter().enumerate() {
            if self.take_one(In(k as u16), *output, arrivals.cells[k], cells, stamps) {
                dropped = masks::with(dropped, k as u32);
            }
        }
        dropped
    }

    // Input i's arrival: nothing where its output is none; else stored behind the last cell of its queue, or dropped where that has D cells. Whether it
    // was dropped.
    fn take_one(
        &mut self,
        i: In,
        output: Out,
        cell: u32,
        cells: &mut [u32],
        stamps: &mut [u32],
    ) -> bool
        requires { Bound (begun (state_of self.old cells.old stamps.old)) i.0 output.0 }
        ensures { (d : ℕ) → taking_of self.new (cond result (d + 2 ^ i.0) d) cells.new stamps.new ≡ take_one i.0 output.0 cell (taking_of self.old d cells.old stamps.old) }
    {
        if output.0 == Card::NONE {
            return false;
        }
        let k = self.card.index(i, output);
        let depth = self.card.d as usize;
        let mut queue = self.queue(k);
        if depth <= queue.count as usize {
            self.counters = self.counters.one_dropped();
            return true;
        }
        let from = k * depth;
        let end = from + depth;
        queue.store(
            cell,
            self.slot,
            &mut cells[from..end],
            &mut stamps[from..end],
        );
        self.counts[k] = queue.count;
        self.counters = self.counters.one_stored();
        false
    }
}

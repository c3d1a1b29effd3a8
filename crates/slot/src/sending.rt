// Step 3 of a slot: each matched queue sends its oldest cell.
ghost use Rattle.std.specs.Prelude.{◌≡◌, List, ℕ};
ghost use Rattle.search.specs.First.{numbers};
ghost use Rattle.slot.specs.Paper.{unsent, send_one, send_all};
ghost use Rattle.slot.specs.Answers.{state_of, sending_of, leaving_of};
ghost use Rattle.slot.specs.Ready.{Ready};
ghost use Rattle.slot.specs.Sending.{Partners, Can};

use crate::{Record, Report};
use card::{Card, In, Out};
use queue::Sent;

impl Record {
    // The cells of all matched queues: a report of partners, cells and waits.
    pub(crate) fn send_all(
        &mut self,
        partners: [Out; 32],
        cells: &mut [u32],
        stamps: &mut [u32],
    ) -> Report
        requires ready { Ready (state_of self.old cells.old stamps.old) }
        requires partners { Partners self.old.card self.old.counts (numbers partners) }
        ensures partners { result.partners ≡ partners }
        ensures sent { leaving_of self.new result cells.new stamps.new ≡ send_all (numbers partners) self.old.card.m (unsent (state_of self.old cells.old stamps.old)) }
    {
        let mut report = Report {
            partners,
            ..Report::none()
        };
        for (k, partner) in partners[..self.card.m as usize].iter().enumerate() {
            if let Some(sent) = self.send_one(In(k as u16), *partner, cells, stamps) {
                report.cells[k] = sent.cell;
                report.waits[k] = sent.wait;
            }
        }
        report
    }

    // Input i's queue for its partner, which is not empty, sends its oldest cell: nothing where there is no partner.
    fn send_one(
        &mut self,
        i: In,
        output: Out,
        cells: &mut [u32],
        stamps: &mut [u32],
    ) -> Option<Sent>
        requires { Can (unsent (state_of self.old cells.old stamps.old)) i.0 output.0 }
        ensures { (told waits : List ℕ) → sending_of i.0 result self.new cells.new stamps.new told waits ≡ send_one i.0 output.0 (record { state = state_of self.old cells.old stamps.old; cells = told; waits = waits }) }
    {
        if output.0 == Card::NONE {
            return None;
        }
        let k = self.card.index(i, output);
        let depth = self.card.d as usize;
        let from = k * depth;
        let end = from + depth;
        let mut queue = self.queue(k);
        let sent = queue.send(self.slot, &mut cells[from..end], &mut stamps[from..end]);
        self.heads[k] = queue.head;
        self.counts[k] = queue.count;
        self.counters = self.counters.one_departed();
        sent
    }
}

// One queue of the card: a ring of D places on two stretches of memory, one for cells and one for arrival stamps, as C lends them. D is the stretches' length.
// What cannot be a queue is left as it is, and sends nothing.
#![tactic(auto)]

ghost use Rattle.std.specs.Prelude.{◌≡◌, ◌&&◌, ◌↔◌, IsSome, IsTrue, nat_lt};
ghost use Rattle.queue.specs.Paper.{ring_of, sent_of, standing, stands, queue_fits, wait_of, store, send};

use card::Card;

// The place of the oldest cell, and how many cells wait.
#[derive(Clone, Copy, Debug, PartialEq, Eq)]
pub struct Queue {
    pub head: u16,
    pub count: u16,
}

// A cell that has left its queue, and how long it has waited there.
#[derive(Clone, Copy, Debug, PartialEq, Eq)]
pub struct Sent {
    pub cell: u32,
    pub wait: u32,
}

impl Queue {
    // Whether this is a queue on stretches of so many places and others: as many of both.
    #[tactic(auto, unfolding(crate::specs::Paper::stands))]
    pub fn stands(self, places: usize, others: usize) -> bool
        ensures { result ≡ stands self.head self.count places others }
    {
        1 <= places
            && places <= Card::DEPTH as usize
            && places == others
            && (self.head as usize) < places
            && self.count as usize <= places
    }

    // Whether this is what a record may hold of queue k, where its card has so many queues of D places: a head below D and at most D cells, and 0 in
    // both where the card has no such queue.
    pub fn fits(self, used: usize, depth: u32, k: usize) -> bool
        ensures { result ≡ queue_fits used depth k self.head self.count }
    {
        if k < used {
            (self.head as u32) < depth && self.count as u32 <= depth
        } else {
            self.head == 0 && self.count == 0
        }
    }

    // A cell goes behind the last one, where the queue has room.
    #[tactic(auto, using(crate::specs::Steps::stands_is, crate::specs::Steps::store_fallen, crate::specs::Steps::store_full, crate::specs::Steps::store_room))]
    pub fn store(&mut self, cell: u32, slot: u32, cells: &mut [u32], stamps: &mut [u32])
        ensures { ring_of self.new cells.new stamps.new ≡ store cell slot (ring_of self.old cells.old stamps.old) }
    {
        let depth = cells.len();
        if !self.stands(depth, stamps.len()) || self.count as usize == depth {
            return;
        }
        let place = (self.head as usize + self.count as usize) % depth;
        cells[place] = cell;
        stamps[place] = slot;
        self.count += 1;
    }

    // The oldest cell leaves, where there is one: its place is cleared, and the head moves on.
    #[tactic(auto, using(crate::specs::Steps::stands_is, crate::specs::Steps::send_fallen, crate::specs::Steps::send_empty, crate::specs::Steps::send_oldest))]
    pub fn send(&mut self, slot: u32, cells: &mut [u32], stamps: &mut [u32]) -> Option<Sent>
        ensures some { IsSome result ↔ IsTrue (standing (ring_of self.old cells.old stamps.old) && nat_lt 0 self.old.count) }
        ensures sent { sent_of result self.new cells.new stamps.new ≡ send slot (ring_of self.old cells.old stamps.old) }
    {
        let depth = cells.len();
        if !self.stands(depth, stamps.len()) || self.count == 0 {
            return None;
        }
        let place = self.head as usize;
        let sent = Sent {
            cell: cells[place],
            wait: wait(slot, stamps[place]),
        };
        cells[place] = 0;
        stamps[place] = 0;
        self.head = ((place + 1) % depth) as u16;
        self.count -= 1;
        Some(sent)
    }
}

// The slot number less the stamp, modulo 4,294,967,296: also right when the slot number has wrapped in between.
#[tactic(auto, using(crate::specs::Steps::wait_value))]
pub fn wait(slot: u32, stamp: u32) -> u32
    ensures { result ≡ wait_of slot stamp }
{
    slot.wrapping_sub(stamp)
}

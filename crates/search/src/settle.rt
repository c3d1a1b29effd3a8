// One side settled: each of mine without a partner is tried until nothing changes any more. Then each that is left out has a closed set:
// no other match has heavier ones of mine.
ghost use Rattle.std.specs.Prelude.{◌≡◌, true, false, ◌<◌, ◌≤◌};
ghost use Rattle.matches.specs.Paper.{at};
ghost use Rattle.search.specs.Pair.{Paired};
ghost use Rattle.search.specs.Stage.{wants};
ghost use Rattle.search.specs.Reach.{port_at};
ghost use Rattle.search.specs.Settle.{Lighter, Lightest, Queue, Visited, Swept, Settled, Outside};

use super::pairing::Pairing;
use super::reach::Search;

// What each of mine requests and weighs, as it was handed over, and the set of those that request something.
#[derive(Clone, Copy)]
pub struct Side {
    pub rows: [u32; 32],
    pub weights: [u32; 32],
    pub asking: u32,
}

// `Paired` stands in the contracts: it ties the pairing, which changes, to the rows. A value of both would have to say at each step that the rows stay.
impl Side {
    // Whether x weighs less than y.
    fn less(&self, x: u32, y: u32) -> bool
        requires { (x < 32) × (y < 32) }
        ensures { (result ≡ true → at self.now.weights x < at self.now.weights y) × (result ≡ false → at self.now.weights y ≤ at self.now.weights x) }
    {
        self.weights[x as usize] < self.weights[y as usize]
    }

    // Of two places in the queue, one with the less weight.
    fn lighter(&self, s: &Search, a: u32, b: u32) -> u32
        requires { (a < 32) × (b < 32) × (port_at s.now a < 32) × (port_at s.now b < 32) }
        ensures { Lighter (at self.now.weights) (port_at s.now) a b result }
    {
        if self.less(s.queued(b), s.queued(a)) {
            b
        } else {
            a
        }
    }

    // The place in the queue of one that weighs least.
    fn lightest(&self, s: &Search) -> u32
        requires { Queue (port_at s.now) s.now.len }
        ensures { Lightest (at self.now.weights) (port_at s.now) s.now.len result }
    {
        // The place is wanted, and the queue is never empty: `min_by_key` would answer an `Option`.
        let mut best = 0;
        for k in 1..s.len {
            best = self.lighter(s, best, k);
        }
        best
    }

    // A place for u, which has none: a free one, or that of one that weighs less.
    fn attempt(&self, p: &mut Pairing, u: u32)
        requires paired { Paired (wants self.now.rows) p.old }
        requires unmatched { (u < 32) × (32 ≤ at p.old.mine u) }
        ensures { Visited self.now.rows self.now.weights p.old u p.new }
    {
        let s = Search::reach(&self.rows, p, u);
        if let Some(out) = s.found {
            s.augment(p, s.at, out);
            return;
        }
        let h = self.lightest(&s);
        let x = s.queued(h);
        if self.less(x, u) {
            s.exchange(p, h);
        }
    }

    // u is tried if it has no partner.
    fn visit(&self, p: &mut Pairing, u: u32)
        requires paired { Paired (wants self.now.rows) p.old }
        requires port { u < 32 }
        ensures { Visited self.now.rows self.now.weights p.old u p.new }
    {
        if 32 <= p.partner(u) {
            self.attempt(p, u);
        }
    }

    // Each of mine that asks and has no partner is tried once.
    fn sweep(&self, p: &mut Pairing)
        requires paired { Paired (wants self.now.rows) p.old }
        requires outside { Outside self.now.rows self.now.asking }
        ensures { Swept self.now.rows self.now.weights p.old p.new }
    {
        for u in masks::ports(masks::both(p.idle, self.asking)) {
            self.visit(p, u);
        }
    }

    // Sweeps, until one leaves the same ones idle: each change makes the idle ones weigh less, so that sweep changed nothing.
    #[tactic(auto, using(crate::specs::Settle::come_end, crate::specs::Settle::come_less, crate::specs::Settle::come_more))]
    pub fn settle(&self, p: Pairing) -> Pairing
        requires paired { Paired (wants self.now.rows) p }
        requires outside { Outside self.now.rows self.now.asking }
        ensures { Settled self.now.rows self.now.weights p result }
    {
        let mut q = p;
        loop {
            let idle = q.idle;
            self.sweep(&mut q);
            if q.idle == idle {
                return q;
            }
        }
    }
}

// Breadth first from one of mine without a partner, and the way back along the finders.
ghost use Rattle.std.specs.Prelude.{◌≡◌, ℕ, ◌+◌, ◌≤◌, ◌<◌, None};
ghost use Rattle.matches.specs.Paper.{at};
ghost use Rattle.search.specs.Pair.{Paired};
ghost use Rattle.search.specs.Stage.{wants};
ghost use Rattle.search.specs.Reach.{port_at, finder_at, StageOf, Pushed, Stepped, Reached, Begun};
ghost use Rattle.search.specs.Augment.{any, Ready, Augmented};
ghost use Rattle.search.specs.Exchange.{Giving, Exchanged};

use super::pairing::Pairing;

// One of mine that was found, and the place in the queue of the one that found it: a place and no Box, since nothing here takes memory.
#[derive(Clone, Copy)]
pub struct Visit {
    pub port: u8,
    pub finder: u8,
}

// Those of mine that were found, in order: the first `len` of the queue. Those before `at` are done with. `outs` and `ins` are the sets of theirs
// and of mine seen; `found` is a free one that the one at `at` requests. The length stands beside the list: with an `ArrayVec` each step on the way
// back would have to show that its place is below the length.
#[derive(Clone, Copy)]
pub struct Search {
    pub queue: [Visit; 32],
    pub len: u32,
    pub at: u32,
    pub outs: u32,
    pub ins: u32,
    pub found: Option<u32>,
}

impl Search {
    // u alone is found.
    fn begin(u: u32) -> Search
        requires { u < 32 }
        ensures { Begun u result }
    {
        let first = Visit {
            port: u as u8,
            finder: 0,
        };
        Search {
            queue: [first; 32],
            len: 1,
            at: 0,
            outs: 0,
            ins: masks::with(0, u),
            found: None,
        }
    }

    // The one of mine at h of the queue.
    pub fn queued(&self, h: u32) -> u32
        requires { h < 32 }
        ensures { result ≡ port_at self.now h }
    {
        u32::from(self.queue[h as usize].port)
    }

    // The place of the one that found it.
    pub fn finder(&self, h: u32) -> u32
        requires { h < 32 }
        ensures { result ≡ finder_at self.now h }
    {
        u32::from(self.queue[h as usize].finder)
    }

    // h, which has j, is found by the one at `at`.
    fn push(&mut self, h: u32, j: u32)
        requires { (h < 32) × (j < 32) × (self.old.len < 32) × (self.old.at < 32) }
        ensures { Pushed self.old h j self.new }
    {
        self.queue[self.len as usize] = Visit {
            port: h as u8,
            finder: self.at as u8,
        };
        self.len += 1;
        self.outs = masks::with(self.outs, j);
        self.ins = masks::with(self.ins, h);
    }

    // A free one that is requested ends the search; else one more holder is found, or the one at `at` is done with.
    fn step(&mut self, rows: &[u32; 32], p: &Pairing)
        requires paired { Paired (wants rows.now) p.now }
        requires stage_of { StageOf rows.now p.now self.old }
        requires waiting { (self.old.at < self.old.len) × (self.old.found ≡ None) }
        ensures { Stepped rows.now p.now self.old self.new }
    {
        let x = self.queued(self.at);
        let fresh = masks::minus(rows[x as usize], self.outs);
        if fresh == 0 {
            self.at += 1;
            return;
        }
        let free = masks::both(fresh, p.vacant);
        if free != 0 {
            self.found = Some(masks::first(free));
            return;
        }
        let j = masks::first(fresh);
        self.push(p.holder(j), j);
    }

    // Breadth first from u, which has no partner.
    pub fn reach(rows: &[u32; 32], p: &Pairing, u: u32) -> Search
        requires paired { Paired (wants rows.now) p.now }
        requires unmatched { (u < 32) × (32 ≤ at p.now.mine u) }
        ensures { Reached rows.now p.now u result }
    {
        // The queue grows while it is walked, so no iterator goes along it.
        let mut s = Search::begin(u);
        while s.at < s.len {
            s.step(rows, p);
            if s.found.is_some() {
                return s;
            }
        }
        s
    }

    // From the one at `last`, which requests the free `out`, back to the first of the queue: each takes what the one after it gave up.
    pub fn augment(&self, p: &mut Pairing, last: u32, out: u32)
        requires { Ready any p.old (port_at self.now) (finder_at self.now) last out }
        ensures { (E : ℕ → ℕ → ℕ) → Ready E p.old (port_at self.now) (finder_at self.now) last out → Augmented E p.old (port_at self.now 0) out p.new }
    {
        // From finder to finder: nothing is counted.
        let mut h = last;
        let mut j = out;
        while 0 < h {
            let x = self.queued(h);
            let old = p.partner(x);
            p.link(x, j);
            j = old;
            h = self.finder(h);
        }
        p.link(self.queued(0), j);
    }

    // The one at h of the queue gives its place to the first.
    pub fn exchange(&self, p: &mut Pairing, h: u32)
        requires { Giving any p.old (port_at self.now) (finder_at self.now) h }
        ensures { (E : ℕ → ℕ → ℕ) → Giving E p.old (port_at self.now) (finder_at self.now) h → Exchanged E p.old (port_at self.now 0) (port_at self.now h) p.new }
    {
        let x = self.queued(h);
        let out = p.partner(x);
        p.unlink(x);
        self.augment(p, self.finder(h), out);
    }
}

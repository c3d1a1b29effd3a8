// One side's partners and the other side's holders, kept each other's inverse. The side that is matched is called mine, the other theirs:
// the same methods serve inputs and outputs.
ghost use Rattle.std.specs.Prelude.{◌≡◌, ℕ, ◌≤◌, ◌<◌, length};
ghost use Rattle.matches.specs.Paper.{at};
ghost use Rattle.search.specs.Pair.{Freed, Paired, Link, Unlink, Swapped};
ghost use Rattle.search.specs.First.{Parted};

// The partner of each of mine and the holder of each of theirs; the sets of those of mine, and of theirs, that have none.
// A partner of 32 or more is none: `masks::with(m, 32)` changes nothing, so none needs no branch, and an `Option<u8>` would double
// the lists, whose stack docs/FIGURES.md counts.
#[derive(Clone, Copy)]
pub struct Pairing {
    pub mine: [u8; 32],
    pub theirs: [u8; 32],
    pub idle: u32,
    pub vacant: u32,
}

impl Pairing {
    // Nobody has a partner.
    pub fn empty() -> Pairing
        ensures { (E : ℕ → ℕ → ℕ) → Paired E result }
    {
        Pairing {
            mine: [32; 32],
            theirs: [32; 32],
            idle: u32::MAX,
            vacant: u32::MAX,
        }
    }

    // The same pairing, seen from the other side.
    pub fn swapped(self) -> Pairing
        ensures { Swapped self result }
    {
        let Pairing {
            mine,
            theirs,
            idle,
            vacant,
        } = self;
        Pairing {
            mine: theirs,
            theirs: mine,
            idle: vacant,
            vacant: idle,
        }
    }

    // The partner of x.
    pub fn partner(&self, x: u32) -> u32
        requires { x < 32 }
        ensures { result ≡ at self.now.mine x }
    {
        u32::from(self.mine[x as usize])
    }

    // Who has j.
    pub fn holder(&self, j: u32) -> u32
        requires { j < 32 }
        ensures { result ≡ at self.now.theirs j }
    {
        u32::from(self.theirs[j as usize])
    }

    // x, which requests j, has j; what x had before is free.
    pub fn link(&mut self, x: u32, j: u32)
        requires { (x < 32) × (j < 32) }
        ensures { Link self.old x j self.new }
    {
        let old = self.partner(x);
        clear(&mut self.theirs, old);
        self.mine[x as usize] = j as u8;
        self.theirs[j as usize] = x as u8;
        self.idle = masks::without(self.idle, x);
        self.vacant = masks::without(masks::with(self.vacant, old), j);
    }

    // x has nothing; what it had is free.
    pub fn unlink(&mut self, x: u32)
        requires { x < 32 }
        ensures { Unlink self.old x self.new }
    {
        let old = self.partner(x);
        clear(&mut self.theirs, old);
        self.mine[x as usize] = 32;
        self.idle = masks::with(self.idle, x);
        self.vacant = masks::with(self.vacant, old);
    }

    // Input i and output j have nothing.
    pub fn part(&mut self, i: u32, j: u32)
        requires { (i < 32) × (j < 32) }
        ensures { Parted self.old i j self.new }
    {
        self.unlink(i);
        let h = self.holder(j);
        if h < 32 {
            self.unlink(h);
        }
    }
}

// None at i, if i is a port.
fn clear(list: &mut [u8; 32], i: u32)
    ensures freed { Freed (at list.old) i (at list.new) }
    ensures long { length list.new ≡ 32 }
{
    if i < 32 {
        list[i as usize] = 32;
    }
}

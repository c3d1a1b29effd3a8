// Ports as bits of a u32. `bit m k` is 1 where port k is in the set m, and 0 where it is not.
// The only crate that shifts or combines bits. A port of 32 or more is in no set, and nothing puts it there.
// A set is a plain u32, since C hands it over and takes it so.
#![tactic(auto)]

ghost use Rattle.std.specs.Prelude.{◌≡◌, ℕ, ◌-◌, min, max};
ghost use Rattle.std.specs.Iterator.{at_most};
ghost use Rattle.masks.specs.Paper.{bit, sum, has, With, Without, Below, Lowest};
ghost use Rattle.masks.specs.Ports.{NextPort};

// The ports of a that are in b too.
#[tactic(auto, using(crate::proofs::Laws::bit_and_lem))]
pub fn both(a: u32, b: u32) -> u32
    ensures { (k : ℕ) → bit result k ≡ min (bit a k) (bit b k) }
{
    a & b
}

// The ports of a and those of b.
#[tactic(auto, using(crate::proofs::Laws::bit_or_lem))]
pub fn either(a: u32, b: u32) -> u32
    ensures { (k : ℕ) → bit result k ≡ max (bit a k) (bit b k) }
{
    a | b
}

// The ports of a that are not in b.
pub fn minus(a: u32, b: u32) -> u32
    ensures { (k : ℕ) → bit result k ≡ bit a k - bit b k }
{
    a & !b
}

// Whether port j is in m.
pub fn has(m: u32, j: u32) -> bool
    ensures { result ≡ has m j }
{
    if j < 32 { (m >> j) & 1 == 1 } else { false }
}

// m and port j.
#[tactic(auto, using(crate::proofs::Laws::with_law, crate::proofs::Laws::with_none))]
pub fn with(m: u32, j: u32) -> u32
    ensures { With m j result }
{
    if j < 32 { m | (1u32 << j) } else { m }
}

// m without port j.
pub fn without(m: u32, j: u32) -> u32
    ensures { Without m j result }
{
    if j < 32 { m & !(1u32 << j) } else { m }
}

// The ports below n.
#[tactic(auto, using(crate::proofs::Laws::below_law, crate::proofs::Laws::below_all, crate::proofs::Laws::below_fits))]
pub fn below(n: u32) -> u32
    ensures { Below n result }
{
    if n < 32 { (1u32 << n) - 1 } else { u32::MAX }
}

// The lowest port of m; 32 where m has none, as `Lowest` promises its callers.
#[tactic(auto, using(crate::proofs::Laws::lowest_law))]
pub fn first(m: u32) -> u32
    ensures { Lowest m result }
{
    m.trailing_zeros()
}

// How many ports m has.
#[tactic(auto, using(crate::proofs::Counting::ones_sum))]
pub fn count(m: u32) -> u32
    ensures { result ≡ sum 32 (bit m) }
{
    m.count_ones()
}

// The ports of m, the lowest first.
pub fn ports(m: u32) -> Members
    ensures { result.left ≡ m }
{
    Members { left: m }
}

// The ports of a set that are still to come, for a loop over `ports`.
#[derive(Clone, Copy, Debug)]
pub struct Members {
    left: u32,
}

impl Iterator for Members {
    type Item = u32;

    ghost next_gives = { λ s r t. NextPort s.left r t.left };

    ghost remaining = { λ s. at_most (sum 32 (bit s.left)) };

    fn next(&mut self) -> Option<u32> {
        if self.left == 0 {
            return None;
        }
        let j = first(self.left);
        self.left = without(self.left, j);
        Some(j)
    }
}

// The card: its limits, its port numbers, what arrives in a slot, its counters, the refusals, and the tests of sizes, masks and arrivals that matching,
// slot and log share.
#![tactic(auto)]

ghost use Rattle.std.specs.Prelude.{◌≡◌, ◌&&◌};
ghost use Rattle.card.specs.Paper.{within, ports_fit, card_fits, names_below, arrival_fits, arrivals_fit, no_arrivals, refusal_number, number_of, index, one_stored, one_dropped, one_departed};

// M inputs, N outputs, and D cells in each queue.
#[derive(Clone, Copy)]
pub struct Card {
    pub m: u32,
    pub n: u32,
    pub d: u32,
}

// An input number: a place that wants one does not take an output.
#[derive(Clone, Copy)]
pub struct In(pub u16);

// An output number, or none: 65535, as C and the log say it. A caller may hand in any number in arrivals, which an Option would not take. None is asked of the
// number itself, since document 01 names the number.
#[derive(Clone, Copy)]
pub struct Out(pub u16);

// What arrives in one slot: for each input an output and a cell, none with 0 where nothing arrives. Two lists, as C lends them and the log's writer does;
// any output stands in them, since refusal 4 must see it.
#[derive(Clone, Copy)]
pub struct Arrivals {
    pub outputs: [Out; 32],
    pub cells: [u32; 32],
}

// What happened since the card was fresh, modulo 4,294,967,296.
#[derive(Clone, Copy)]
pub struct Counters {
    pub offered: u32,
    pub stored: u32,
    pub dropped: u32,
    pub departed: u32,
}

// Why a call is refused: what document 01 numbers 1 to 11, in its order.
#[derive(Clone, Copy, Debug, PartialEq, Eq)]
pub enum Refusal {
    Size,
    Length,
    Hold,
    Arrival,
    Row,
    Weight,
    Record,
    Log,
    Back,
    Buffer,
    Slot,
}

impl Card {
    // At most so many inputs, and so many outputs.
    pub const PORTS: u32 = 32;

    // At most so many cells in a queue.
    pub const DEPTH: u32 = 64;

    // In place of an output: none.
    pub const NONE: u16 = 65535;

    // Whether M, N and D are within their limits: refusal 1 where D is asked.
    #[tactic(auto, unfolding(crate::specs::Paper::card_fits))]
    pub fn fits(self) -> bool
        ensures { result ≡ card_fits self.m self.n self.d }
    {
        ports_fit(self.m, self.n) && within(Card::DEPTH, self.d)
    }

    // Queue (i, j) has index i·N + j.
    pub fn index(self, i: In, j: Out) -> usize
        ensures { result ≡ index self i.0 j.0 }
    {
        i.0 as usize * self.n as usize + j.0 as usize
    }
}

// One method for each way in which document 01 counts: each has its definition in specs/Paper.
impl Counters {
    // One arrival more, and stored.
    pub fn one_stored(self) -> Counters
        ensures { result ≡ one_stored self }
    {
        Counters {
            offered: self.offered.wrapping_add(1),
            stored: self.stored.wrapping_add(1),
            ..self
        }
    }

    // One arrival more, and dropped.
    pub fn one_dropped(self) -> Counters
        ensures { result ≡ one_dropped self }
    {
        Counters {
            offered: self.offered.wrapping_add(1),
            dropped: self.dropped.wrapping_add(1),
            ..self
        }
    }

    // One cell sent.
    pub fn one_departed(self) -> Counters
        ensures { result ≡ one_departed self }
    {
        Counters {
            departed: self.departed.wrapping_add(1),
            ..self
        }
    }
}

// Whether M and N are within their limits: refusal 1 where D is not asked.
#[tactic(auto, unfolding(crate::specs::Paper::ports_fit))]
pub fn ports_fit(m: u32, n: u32) -> bool
    ensures { result ≡ ports_fit m n }
{
    within(Card::PORTS, m) && within(Card::PORTS, n)
}

// Whether a mask names ports below n alone: refusal 3 of a hold, refusal 5 of a row.
pub fn names_below(n: u32, mask: u32) -> bool
    ensures { result ≡ names_below n mask }
{
    masks::minus(mask, masks::below(n)) == 0
}

// Whether what stands at input i is an arrival within the card, or none with cell 0: refusal 4 of one input.
pub fn arrival_fits(m: u32, n: u32, i: In, output: Out, cell: u32) -> bool
    ensures { result ≡ arrival_fits m n i.0 output.0 cell }
{
    let to = output.0;
    let none = to == Card::NONE;
    let inside = also((i.0 as u32) < m, (to as u32) < n);
    // Each side is a call of `also`, so that no branch is left behind.
    also(none, cell == 0) || also(!none, inside)
}

// Both tests. As a call it leaves no branch behind, so that a fold or a loop over many places looks at all of them.
pub fn also(a: bool, b: bool) -> bool
    ensures { result ≡ (a && b) }
{
    a && b
}

impl Arrivals {
    // Nothing arrives.
    pub fn none() -> Arrivals
        ensures { result ≡ no_arrivals }
    {
        Arrivals {
            outputs: [Out(Card::NONE); 32],
            cells: [0; 32],
        }
    }

    // Whether each input's arrival fits: refusal 4.
    pub fn fit(&self, m: u32, n: u32) -> bool
        ensures { result ≡ arrivals_fit m n self.now }
    {
        // A fold that looks at every input: `all` takes a branch for each. docs/LOOK-BACK.md, d3, has the times.
        let arrivals = self.outputs.iter().zip(self.cells.iter());
        (0..32u16)
            .zip(arrivals)
            .fold(true, |ok, (i, (output, cell))| {
                also(ok, arrival_fits(m, n, In(i), *output, *cell))
            })
    }
}

// Whether x is 1 to most.
fn within(most: u32, x: u32) -> bool
    ensures { result ≡ within most x }
{
    (1..=most).contains(&x)
}

// Document 01's number.
impl From<Refusal> for u32 {
    ghost from_gives = { λ refusal number. number ≡ refusal_number refusal };

    fn from(refusal: Refusal) -> u32 {
        match refusal {
            Refusal::Size => 1,
            Refusal::Length => 2,
            Refusal::Hold => 3,
            Refusal::Arrival => 4,
            Refusal::Row => 5,
            Refusal::Weight => 6,
            Refusal::Record => 7,
            Refusal::Log => 8,
            Refusal::Back => 9,
            Refusal::Buffer => 10,
            Refusal::Slot => 11,
        }
    }
}

// The number of what a call answers: its refusal's, and 0 where it is accepted.
pub fn number<T>(outcome: &Result<T, Refusal>) -> u32
    ensures { result ≡ number_of outcome.now }
{
    match outcome {
        Ok(_) => 0,
        Err(refusal) => u32::from(*refusal),
    }
}

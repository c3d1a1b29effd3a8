// The cases of the input, one behind the other. A number is four bytes, the lowest first, and a count is two.
ghost use Rattle.std.specs.Prelude.{◌≡◌, ◌+◌, ◌<◌, ◌≤◌, length, OnSome};
ghost use Rattle.std.specs.Iterator.{at_most};

use arrayvec::ArrayVec;

// The longest list of counts that is read: more than a card has queues, since a list may be too long.
const MOST_COUNTS: usize = 1100;

// A case, by its kind.
#[derive(Drop)]
pub enum Case {
    Table {
        m: u32,
        n: u32,
        hold: u32,
        counts: ArrayVec<u16, MOST_COUNTS>,
    },
    Weighted(Weights),
    Ranked(Weights),
}

// Requests and the weights of the ports: three lists of 32, as the functions that are tried take them.
#[derive(Clone, Copy)]
pub struct Weights {
    pub m: u32,
    pub n: u32,
    pub rows: [u32; 32],
    pub inputs: [u32; 32],
    pub outputs: [u32; 32],
}

// What is no case: it is of another kind, or cut short.
#[derive(Clone, Copy)]
pub struct NoCase;

// The cases that are left in these bytes. What is no case is the last.
#[derive(Clone, Copy)]
pub struct Cases<'a> {
    rest: &'a [u8],
}

impl<'a> Iterator for Cases<'a> {
    type Item = Result<Case, NoCase>;

    ghost remaining = { λ s. at_most (length s.rest.now) };

    fn next(&mut self) -> Option<Result<Case, NoCase>> {
        if self.rest.is_empty() {
            return None;
        }
        let case = self.case();
        if case.is_none() {
            self.rest = &[];
        }
        Some(case.ok_or(NoCase))
    }
}

// Each reader says that no more is left than before: by that the cases end.
impl<'a> Cases<'a> {
    pub fn of(bytes: &'a [u8]) -> Cases<'a> {
        Cases { rest: bytes }
    }

    // The next case.
    fn case(&mut self) -> Option<Case>
        ensures { OnSome result (length self.new.rest.now < length self.old.rest.now) }
    {
        match self.number()? {
            1 => self.table(),
            2 => Some(Case::Weighted(self.weights()?)),
            3 => Some(Case::Ranked(self.weights()?)),
            _ => None,
        }
    }

    // A table: m, n, hold, how many counts there are, the counts, and two bytes more where their number is odd.
    fn table(&mut self) -> Option<Case>
        ensures { length self.new.rest.now ≤ length self.old.rest.now }
    {
        let m = self.number()?;
        let n = self.number()?;
        let hold = self.number()?;
        let len = self.number()?;
        let mut counts = ArrayVec::new();
        // So many counts come: no index counts them.
        for _ in 0..len {
            counts.try_push(self.count()?).ok()?;
        }
        if len % 2 == 1 {
            self.count()?;
        }
        Some(Case::Table { m, n, hold, counts })
    }

    // m, n, the rows, the input weights and the output weights.
    fn weights(&mut self) -> Option<Weights>
        ensures { length self.new.rest.now ≤ length self.old.rest.now }
    {
        Some(Weights {
            m: self.number()?,
            n: self.number()?,
            rows: self.list()?,
            inputs: self.list()?,
            outputs: self.list()?,
        })
    }

    // The next 32 numbers.
    fn list(&mut self) -> Option<[u32; 32]>
        ensures { length self.new.rest.now ≤ length self.old.rest.now }
    {
        let mut list = [0; 32];
        for place in list.iter_mut() {
            *place = self.number()?;
        }
        Some(list)
    }

    // The next number.
    fn number(&mut self) -> Option<u32>
        ensures none_more { length self.new.rest.now ≤ length self.old.rest.now }
        ensures fewer { OnSome result (length self.new.rest.now < length self.old.rest.now) }
    {
        Some(u32::from_le_bytes(self.bytes()?))
    }

    // The next count.
    fn count(&mut self) -> Option<u16>
        ensures { length self.new.rest.now ≤ length self.old.rest.now }
    {
        Some(u16::from_le_bytes(self.bytes()?))
    }

    // The next N bytes.
    fn bytes<const N: usize>(&mut self) -> Option<[u8; N]>
        ensures none_more { length self.new.rest.now ≤ length self.old.rest.now }
        ensures fewer { OnSome result (length self.new.rest.now + N ≡ length self.old.rest.now) }
    {
        let (bytes, rest) = self.rest.split_first_chunk::<N>()?;
        self.rest = rest;
        Some(*bytes)
    }
}

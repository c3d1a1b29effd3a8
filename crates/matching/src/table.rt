// The requests and port weights that a table of counts and a hold come to.
ghost use Rattle.std.specs.Prelude.{◌≡◌, ℕ, ◌+◌, ◌*◌, ◌<◌, ◌≤◌, length, ltb};
ghost use Rattle.card.specs.Paper.{ports};
ghost use Rattle.matches.specs.Paper.{max_weight, mask, count, table_in, table_out, table_rows};
ghost use Rattle.matching.specs.Queues.{Sized, Light, Marked, Lanes, waits, lane};
ghost use Rattle.matching.specs.Fill.{filled};

// A lent table: queue (i, j) has its count at place i·N + j.
#[derive(Clone, Copy)]
pub struct Table<'a> {
    pub m: u32,
    pub n: u32,
    pub counts: &'a [u16],
    ghost sized: { Sized m n counts.now },
}

impl Table<'_> {
    // The requests: output j of row i where queue (i, j) is not empty and j is not held.
    pub fn rows(&self, hold: u32) -> [u32; 32]
        ensures { result ≡ table_rows self.now.m self.now.n self.now.counts.now hold }
    {
        // By number: of a part of a list that `iter_mut` goes along nothing is known afterwards.
        let mut rows = [0; 32];
        for i in 0..self.m {
            rows[i as usize] = masks::minus(self.waiting(i), hold);
        }
        rows
    }

    // R(i) for each input, and 0 from M on. A row of the table is a lane of counts that stand side by side.
    pub fn in_totals(&self) -> [u32; 32]
        ensures { (result ≡ table_in self.now.m self.now.n self.now.counts.now) × (Light result) }
    {
        self.totals(self.m, self.n, self.n, 1)
    }

    // C(j) for each output, and 0 from N on. A column is a lane of counts that stand N places apart.
    pub fn out_totals(&self) -> [u32; 32]
        ensures { (result ≡ table_out self.now.m self.now.n self.now.counts.now) × (Light result) }
    {
        self.totals(self.n, 1, self.m, self.n)
    }

    // The outputs that have cells waiting at input i.
    fn waiting(&self, i: u32) -> u32
        requires { i < self.now.m }
        ensures { result ≡ mask self.now.n (waits self.now.m self.now.n self.now.counts.now i) }
    {
        let from = (i * self.n) as usize;
        let counts = &self.counts[from..from + self.n as usize];
        let mut row = 0;
        for (j, cells) in counts.iter().enumerate() {
            row = mark(row, j as u32, *cells);
        }
        row
    }

    // What each of so many lanes holds, and 0 behind them: lanes begin `apart` places from one another, and have `len` counts `step` places apart.
    fn totals(&self, lanes: u32, apart: u32, len: u32, step: u32) -> [u32; 32]
        requires { Lanes self.now.counts.now lanes apart len step }
        ensures { (result ≡ filled ports lanes (λ k. lane self.now.counts.now (k * apart) len step)) × (Light result) }
    {
        // By number, as in `rows`.
        let mut totals = [0; 32];
        for k in 0..lanes {
            totals[k as usize] = self.total(k * apart, len, step);
        }
        totals
    }

    // The cells of one lane.
    fn total(&self, from: u32, len: u32, step: u32) -> u32
        requires { (len ≤ 32) × ((x : ℕ) → x < len → from + x * step < length self.now.counts.now) }
        ensures { (result ≡ lane self.now.counts.now from len step) × (result ≤ max_weight) }
    {
        // A lane's counts stand apart, and the `sum` of `step_by` and `take` is not known to stay below its bound: so they are read by their places.
        let counts = self.counts;
        let mut total = 0;
        for x in 0..len {
            total += u32::from(counts[(from + x * step) as usize]);
        }
        total
    }
}

// row, with output j where cells wait for it.
fn mark(row: u32, j: u32, cells: u16) -> u32
    ensures { Marked row j (ltb 0 cells) result }
{
    if cells > 0 { masks::with(row, j) } else { row }
}

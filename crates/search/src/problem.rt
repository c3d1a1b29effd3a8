// The requests seen from both sides, and what is left of them for some of the ports.
ghost use Rattle.std.specs.Prelude.{◌≡◌, ℕ, ◌<◌};
ghost use Rattle.masks.specs.Paper.{bit};
ghost use Rattle.matches.specs.Paper.{at};

use super::rows;

// Rows for the inputs and columns for the outputs, and two sets: an input outside `ins` and an output outside `outs` have no request.
#[derive(Clone, Copy)]
pub struct Problem {
    pub rows: [u32; 32],
    pub cols: [u32; 32],
    pub ins: u32,
    pub outs: u32,
    ghost turned: { (i j : ℕ) → i < 32 → j < 32 → bit (at cols j) i ≡ bit (at rows i) j },
    ghost others_idle: { (i : ℕ) → i < 32 → bit ins i ≡ 0 → at rows i ≡ 0 },
    ghost others_free: { (j : ℕ) → j < 32 → bit outs j ≡ 0 → at cols j ≡ 0 },
}

impl Problem {
    ghost use Rattle.search.specs.Problem.{ProblemOf, LeftOf};

    // The problem of these rows.
    pub fn new(rows: [u32; 32]) -> Problem
        ensures { ProblemOf rows result }
    {
        let cols = rows::columns(rows);
        Problem {
            rows,
            cols,
            ins: rows::asking(rows),
            outs: rows::asking(cols),
        }
    }

    // What is left of the whole problem for these inputs and outputs.
    pub fn left_of(&self, ins: u32, outs: u32) -> Problem
        ensures { LeftOf self.now ins outs result }
    {
        let rows = rows::narrow(self.rows, ins, outs);
        let cols = rows::narrow(self.cols, outs, ins);
        Problem {
            rows,
            cols,
            ins,
            outs,
        }
    }
}

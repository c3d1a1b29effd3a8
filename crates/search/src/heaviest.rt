// A heaviest match, and what a match weighs.
ghost use Rattle.std.specs.Prelude.{◌≡◌, ◌+◌, ◌<◌, ltb};
ghost use Rattle.masks.specs.Paper.{keep};
ghost use Rattle.matches.specs.Paper.{at, weight};
ghost use Rattle.search.specs.Pair.{Paired};
ghost use Rattle.search.specs.Stage.{wants};
ghost use Rattle.search.specs.Heaviest.{Heaviest};

use super::pairing::Pairing;
use super::problem::Problem;
use super::settle::Side;

// What each input and each output weighs.
#[derive(Clone, Copy)]
pub struct Weights {
    pub inputs: [u32; 32],
    pub outputs: [u32; 32],
}

impl Weights {
    // A heaviest match. The inputs' side is settled, and then the outputs', which keeps every matched input matched.
    pub fn heaviest(&self, problem: &Problem, start: Pairing) -> Pairing
        requires { Paired (wants problem.now.rows) start }
        ensures { Heaviest problem.now.rows self.now.inputs self.now.outputs result }
    {
        let Weights { inputs, outputs } = *self;
        let Problem {
            rows,
            cols,
            ins,
            outs,
        } = *problem;
        let by_input = Side {
            rows,
            weights: inputs,
            asking: ins,
        };
        let by_output = Side {
            rows: cols,
            weights: outputs,
            asking: outs,
        };
        let settled = by_input.settle(start);
        by_output.settle(settled.swapped()).swapped()
    }

    // R(i) + C(j), which can need 33 bits where a port without a request weighs what it likes.
    pub fn gain(&self, i: u32, j: u32) -> u64
        requires { (i < 32) × (j < 32) }
        ensures { (result ≡ at self.now.inputs i + at self.now.outputs j) × (result < 8589934592) }
    {
        u64::from(self.inputs[i as usize]) + u64::from(self.outputs[j as usize])
    }

    // What input i adds to the weight of a match in which it has j.
    fn brought(&self, i: u32, j: u32) -> u64
        requires { i < 32 }
        ensures { (result ≡ keep (ltb j 32) (at self.now.inputs i + at self.now.outputs j)) × (result < 8589934592) }
    {
        if j < 32 { self.gain(i, j) } else { 0 }
    }

    // The weight of a match.
    pub fn weigh(&self, p: &Pairing) -> u64
        ensures { (result ≡ weight 32 32 (at self.now.inputs) (at self.now.outputs) (at p.now.mine)) × (result < 274877906944) }
    {
        // A `for`: that 32 gains stay below the bound does not close for the `sum` of a chain.
        let mut sum = 0;
        for (i, j) in p.mine.iter().enumerate() {
            sum += self.brought(i as u32, u32::from(*j));
        }
        sum
    }
}

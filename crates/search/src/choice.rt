// The first of the heaviest matches: the inputs are fixed one by one, from 0, as the definition of `best` has it. What is left to match is a problem
// of its own, with a heaviest match of it at hand.
ghost use Rattle.std.specs.Prelude.{◌≡◌, List, ℕ, ◌+◌, ◌<◌, ◌≤◌};
ghost use Rattle.matches.specs.Paper.{at};
ghost use Rattle.search.specs.First.{Fit, State, Gone, Keeping, Candidates, FirstOf};

use super::heaviest::Weights;
use super::pairing::Pairing;
use super::problem::Problem;
use super::rows;
use card::{Card, Out};

// The whole problem, with what its ports weigh.
#[derive(Clone, Copy)]
pub struct Whole {
    pub problem: Problem,
    pub weights: Weights,
}

// The inputs and outputs that are left, a heaviest match of what they request with its weight, and the partners fixed so far, as `Found` hands them on.
#[derive(Clone, Copy)]
pub struct Rest {
    pub ins: u32,
    pub outs: u32,
    pub pairing: Pairing,
    pub weight: u64,
    pub partners: [Out; 32],
}

// `Fit` and `State` stand in the contracts, and the whole goes along: it stays lent while what is left of it changes.
impl Rest {
    // Nothing is fixed yet.
    fn new(whole: &Whole) -> Rest
        ensures { State whole.now.problem whole.now.problem.rows whole.now.weights.inputs whole.now.weights.outputs result 0 }
    {
        let pairing = whole.weights.heaviest(&whole.problem, Pairing::empty());
        Rest {
            ins: whole.problem.ins,
            outs: whole.problem.outs,
            pairing,
            weight: whole.weights.weigh(&pairing),
            partners: [Out(Card::NONE); 32],
        }
    }

    // Input i goes to output j: what that leaves, with a heaviest match of it.
    fn trial(&self, whole: &Whole, i: u32, j: u32) -> Rest
        requires { (i < 32) × (j < 32) × (Fit whole.now.problem self.now) }
        ensures { Gone whole.now.problem whole.now.weights.inputs whole.now.weights.outputs self.now i j result }
    {
        let ins = masks::without(self.ins, i);
        let outs = masks::without(self.outs, j);
        let mut start = self.pairing;
        start.part(i, j);
        let pairing = whole
            .weights
            .heaviest(&whole.problem.left_of(ins, outs), start);
        let mut partners = self.partners;
        partners[i as usize] = Out(j as u16);
        Rest {
            ins,
            outs,
            pairing,
            weight: whole.weights.weigh(&pairing),
            partners,
        }
    }

    // Input i keeps what it has in the match at hand: a heaviest match less one of its pairs is heaviest for what is left.
    fn keep(&self, whole: &Whole, i: u32) -> Rest
        requires { i < 32 }
        ensures { Keeping whole.now.weights.inputs whole.now.weights.outputs self.now i result }
    {
        let now = self.pairing.partner(i);
        let mut rest = *self;
        rest.ins = masks::without(rest.ins, i);
        rest.outs = masks::without(rest.outs, now);
        if 32 <= now {
            return rest;
        }
        rest.pairing.unlink(i);
        rest.weight = whole.weights.weigh(&rest.pairing);
        rest.partners[i as usize] = Out(now as u16);
        rest
    }

    // What input i still requests below its present partner.
    #[tactic(auto, using(crate::specs::First::candidates_are))]
    fn candidates(&self, whole: &Whole, i: u32) -> u32
        requires { i < 32 }
        ensures { Candidates whole.now.problem self.now i (at self.now.pairing.mine i) result }
    {
        let rows = &whole.problem.rows;
        let row = rows::kept(masks::has(self.ins, i), rows[i as usize], self.outs);
        let now = self.pairing.partner(i);
        masks::both(row, masks::below(now))
    }

    // Input i goes to the first output with which the whole still weighs as much; below its present partner there may be some.
    fn fix(&self, whole: &Whole, i: u32) -> Rest
        requires { (i < 32) × (Fit whole.now.problem self.now) }
        ensures { (rows : List ℕ) → State whole.now.problem rows whole.now.weights.inputs whole.now.weights.outputs self.now i
            → State whole.now.problem rows whole.now.weights.inputs whole.now.weights.outputs result (i + 1) }
    {
        for j in masks::ports(self.candidates(whole, i)) {
            let t = self.trial(whole, i, j);
            if t.weight + whole.weights.gain(i, j) == self.weight {
                return t;
            }
        }
        self.keep(whole, i)
    }

    // Input i, whose row is given, is fixed; one without a request keeps none.
    fn place(&mut self, whole: &Whole, row: u32, i: u32)
        requires { (i < 32) × (Fit whole.now.problem self.old) }
        ensures { (rows : List ℕ) → row ≡ at rows i → State whole.now.problem rows whole.now.weights.inputs whole.now.weights.outputs self.old i
            → State whole.now.problem rows whole.now.weights.inputs whole.now.weights.outputs self.new (i + 1) }
    {
        if row != 0 {
            *self = self.fix(whole, i);
        }
    }
}

// The partners of the first of the heaviest matches, as a match hands them on, and its weight.
#[derive(Clone, Copy)]
pub struct Found {
    pub partners: [Out; 32],
    pub weight: u64,
}

// The first of the heaviest matches of these requests: input after input is fixed.
pub fn first(rows: [u32; 32], inputs: [u32; 32], outputs: [u32; 32]) -> Found
    ensures { FirstOf rows inputs outputs result }
{
    let whole = Whole {
        problem: Problem::new(rows),
        weights: Weights { inputs, outputs },
    };
    let mut rest = Rest::new(&whole);
    let weight = rest.weight;
    for (i, row) in rows.iter().enumerate() {
        rest.place(&whole, *row, i as u32);
    }
    let partners = rest.partners;
    Found { partners, weight }
}

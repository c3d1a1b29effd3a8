// Matching: from requests and port weights, from a table of counts and a hold, and the rank form. Each function takes any arguments whatever:
// what lies outside its limit gets its refusal, in document 01's order. Rows and weights are lists of 32, handed over as values: document 01 wants them so.
// M and N go alone, as a match asks no D.
#![tactic(auto)]

mod ranks;
mod refusals;
mod table;

ghost use Rattle.std.specs.Prelude.{◌≡◌, Ok, Err, length};
ghost use Rattle.search.specs.First.{numbers};
ghost use Rattle.matches.specs.Paper.{best, size_of, weight_match, table_match, rank_form};
ghost use Rattle.matching.specs.Answers.{Bounded, answer_of, match_of, no_match, Matched, form_of, match_beside, form_beside, no_form};
ghost use Rattle.card.specs.Paper.{number_of};

use card::{Card, Out, Refusal};
use table::Table;

// 32 partners as document 01 and C have them (none for an input without one), the number of pairs and their weight.
#[derive(Clone, Copy)]
pub struct Match {
    pub partners: [Out; 32],
    pub size: u32,
    pub weight: u32,
}

// The same rows, with a rank for each weight: three lists, as they were handed over.
#[derive(Clone, Copy)]
pub struct RankForm {
    pub rows: [u32; 32],
    pub inputs: [u32; 32],
    pub outputs: [u32; 32],
}

impl Match {
    // No partners, and 0 in all else.
    pub fn none() -> Match
        ensures { match_of result ≡ no_match }
    {
        Match {
            partners: [Out(Card::NONE); 32],
            size: 0,
            weight: 0,
        }
    }

    // What an answer has beside its refusal: the match, and no match where it is refused.
    pub fn of(answer: Result<Match, Refusal>) -> Match
        ensures { match_beside (number_of answer) result ≡ answer_of answer }
    {
        answer.unwrap_or(Match::none())
    }
}

impl RankForm {
    // 0 in all of it.
    #[tactic(auto, unfolding(matches::specs::Paper::tab))]
    pub fn none() -> RankForm
        ensures { form_beside 0 result ≡ no_form }
    {
        RankForm {
            rows: [0; 32],
            inputs: [0; 32],
            outputs: [0; 32],
        }
    }

    // What an answer has beside its refusal: the rank form, and 0 in all of it where it is refused.
    pub fn of(answer: Result<RankForm, Refusal>) -> RankForm
        ensures { form_beside (number_of answer) result ≡ form_of answer }
    {
        answer.unwrap_or(RankForm::none())
    }
}

// The weighted match: refusals 1, 5, 6.
pub fn weighted_match(
    m: u32,
    n: u32,
    rows: [u32; 32],
    inputs: [u32; 32],
    outputs: [u32; 32],
) -> Result<Match, Refusal>
    ensures { answer_of result ≡ weight_match m n rows inputs outputs }
{
    refusals::of_weights(m, n, rows, inputs, outputs)?;
    Ok(heaviest(rows, inputs, outputs))
}

// The table match: refusals 1, 2, 3.
pub fn table_match(m: u32, n: u32, counts: &[u16], hold: u32) -> Result<Match, Refusal>
    ensures { answer_of result ≡ table_match m n counts.now hold }
{
    refusals::of_table(m, n, counts, hold)?;
    let table = Table { m, n, counts };
    let inputs = table.in_totals();
    let outputs = table.out_totals();
    Ok(heaviest(table.rows(hold), inputs, outputs))
}

// The rank form: refusals 1, 5, 6.
pub fn rank_form(
    m: u32,
    n: u32,
    rows: [u32; 32],
    inputs: [u32; 32],
    outputs: [u32; 32],
) -> Result<RankForm, Refusal>
    ensures { form_of result ≡ rank_form m n rows inputs outputs }
{
    refusals::of_weights(m, n, rows, inputs, outputs)?;
    let mut form = RankForm {
        rows,
        inputs,
        outputs,
    };
    ranks::ranks(search::asking(rows), &mut form.inputs);
    ranks::ranks(refusals::asking_outs(rows), &mut form.outputs);
    Ok(form)
}

// The first of the heaviest matches of an accepted problem. No weight is too large for it: 32 pairs of at most 2 × 2,097,120.
fn heaviest(rows: [u32; 32], inputs: [u32; 32], outputs: [u32; 32]) -> Match
    requires { Bounded rows inputs outputs }
    ensures { Matched rows inputs outputs result }
{
    let found = search::first(rows, inputs, outputs);
    let partners = found.partners;
    Match {
        partners,
        size: pairs(partners),
        weight: found.weight as u32,
    }
}

// How many inputs have a partner.
#[tactic(auto, using(crate::specs::Answers::pairs_counted))]
fn pairs(partners: [Out; 32]) -> u32
    ensures { result ≡ size_of (numbers partners) }
{
    partners.iter().filter(|output| output.0 < 32).count() as u32
}

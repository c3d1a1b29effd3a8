// The refusals of the three matching functions, in document 01's order: table match 1, 2, 3; weighted match and rank form 1, 5, 6.
ghost use Rattle.std.specs.Prelude.{◌≡◌, ℕ, ◌<◌};
ghost use Rattle.masks.specs.Paper.{has};
ghost use Rattle.card.specs.Paper.{number_of};
ghost use Rattle.matches.specs.Paper.{out_asks, row_fits, rows_fit, weight_fits, weights_fit, table_refusal, weight_refusal};
ghost use Rattle.matching.specs.Asking.{side_fits};

use card::Refusal;

// The most that a port with a request may weigh: 32 × 65,535.
const MOST: u32 = 2097120;

// The outputs that have a request.
pub fn asking_outs(rows: [u32; 32]) -> u32
    ensures { (j : ℕ) → j < 32 → has result j ≡ out_asks rows j }
{
    let mut asking = 0;
    for row in rows.iter() {
        asking = masks::either(asking, *row);
    }
    asking
}

// Refusals 1, 5 and 6: of weighted match and rank form.
#[tactic(auto, unfolding(matches::specs::Paper::weight_refusal))]
pub fn of_weights(
    m: u32,
    n: u32,
    rows: [u32; 32],
    inputs: [u32; 32],
    outputs: [u32; 32],
) -> Result<(), Refusal>
    ensures { number_of result ≡ weight_refusal m n rows inputs outputs }
{
    if !card::ports_fit(m, n) {
        return Err(Refusal::Size);
    }
    if !rows_fit(m, n, rows) {
        return Err(Refusal::Row);
    }
    if !weights_fit(rows, inputs, outputs) {
        return Err(Refusal::Weight);
    }
    Ok(())
}

// Refusals 1, 2 and 3: of table match.
#[tactic(auto, unfolding(matches::specs::Paper::table_refusal), using(crate::specs::Asking::table_small))]
pub fn of_table(m: u32, n: u32, counts: &[u16], hold: u32) -> Result<(), Refusal>
    ensures { number_of result ≡ table_refusal m n counts.now hold }
{
    if !card::ports_fit(m, n) {
        return Err(Refusal::Size);
    }
    if counts.len() != (m * n) as usize {
        return Err(Refusal::Length);
    }
    if !card::names_below(n, hold) {
        return Err(Refusal::Hold);
    }
    Ok(())
}

// Whether each row fits: refusal 5.
fn rows_fit(m: u32, n: u32, rows: [u32; 32]) -> bool
    ensures { result ≡ rows_fit m n rows }
{
    // A fold that looks at every row: `all` takes a branch for each. docs/LOOK-BACK.md, d2, has the times.
    (0..32u32).zip(rows.iter()).fold(true, |ok, (i, row)| {
        card::also(ok, row_fits(m, n, i, *row))
    })
}

// Whether the row of input i names outputs below n alone, and is 0 where there is no such input.
fn row_fits(m: u32, n: u32, i: u32, row: u32) -> bool
    ensures { result ≡ row_fits m n i row }
{
    card::names_below(n, row) && (i < m || row == 0)
}

// Whether each port that asks has a weight that fits: refusal 6.
fn weights_fit(rows: [u32; 32], inputs: [u32; 32], outputs: [u32; 32]) -> bool
    ensures { result ≡ weights_fit rows inputs outputs }
{
    let ins = side_fits(search::asking(rows), inputs);
    let outs = side_fits(asking_outs(rows), outputs);
    ins && outs
}

// The same of one side, whose ports that ask are given.
fn side_fits(asking: u32, weights: [u32; 32]) -> bool
    ensures { result ≡ side_fits asking weights }
{
    // A fold, as in `rows_fit`.
    (0..32u32)
        .zip(weights.iter())
        .fold(true, |ok, (i, weight)| {
            card::also(ok, weight_fits(masks::has(asking, i), *weight))
        })
}

// Whether a weight is one that a port may have: any where the port does not ask.
fn weight_fits(asking: bool, weight: u32) -> bool
    ensures { result ≡ weight_fits asking weight }
{
    !asking || (1..=MOST).contains(&weight)
}

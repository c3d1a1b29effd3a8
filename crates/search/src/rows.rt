// Rows of requests: their columns, who asks, and what is left of them.
ghost use Rattle.std.specs.Prelude.{◌≡◌, ◌<◌, length};
ghost use Rattle.search.specs.Problem.{Columns, Asking};
ghost use Rattle.search.specs.ProblemSteps.{Spread, Marked, Kept, Narrow};

// Input i joins the column of each output of its row. Only the outputs that the row has are visited, and the columns are changed in place:
// a copy for each row would take longer than a short row itself.
fn spread(cols: &mut [u32; 32], row: u32, i: u32)
    requires { (i < 32) × (length cols.old ≡ 32) }
    ensures { Spread cols.old row i cols.new }
{
    for j in masks::ports(row) {
        let k = j as usize;
        cols[k] = masks::with(cols[k], i);
    }
}

// The same requests by output.
pub fn columns(rows: [u32; 32]) -> [u32; 32]
    ensures { Columns rows result }
{
    let mut cols = [0; 32];
    for (i, row) in rows.iter().enumerate() {
        spread(&mut cols, *row, i as u32);
    }
    cols
}

// Port i joins the set where its row has a request.
fn mark(set: u32, row: u32, i: u32) -> u32
    requires { i < 32 }
    ensures { Marked set row i result }
{
    if row == 0 { set } else { masks::with(set, i) }
}

// The ports whose row has a request.
#[tactic(auto, using(crate::specs::ProblemSteps::asking_none, crate::specs::ProblemSteps::asking_more))]
pub fn asking(rows: [u32; 32]) -> u32
    ensures { Asking rows result }
{
    let mut set = 0;
    for (i, row) in rows.iter().enumerate() {
        set = mark(set, *row, i as u32);
    }
    set
}

// What is left of a row: nothing where its own port has gone, and else what it asks of theirs.
pub fn kept(stays: bool, row: u32, theirs: u32) -> u32
    ensures { Kept stays row theirs result }
{
    if stays { masks::both(row, theirs) } else { 0 }
}

// The rows of mine that are left, with those of theirs that are left. One function serves both sides.
pub fn narrow(mut rows: [u32; 32], mine: u32, theirs: u32) -> [u32; 32]
    ensures { Narrow 32 rows mine theirs result }
{
    for (i, row) in rows.iter_mut().enumerate() {
        *row = kept(masks::has(mine, i as u32), *row, theirs);
    }
    rows
}

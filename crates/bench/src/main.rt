// Reads cases from standard input and prints what crate matching answers to each, one line a case. A case starts with its kind:
// 1, table match: then m, n, hold, how many counts there are, the counts, and two bytes more where their number is odd;
// 2, weighted match, and 3, rank form: then m, n, 32 rows, 32 input weights and 32 output weights.
// Another kind, or a case cut short, ends the program with the line `?`.
#![tactic(auto)]

mod answers;
mod cases;

use answers::{MatchLine, RankLine};
use cases::{Case, Cases};
use matching::{rank_form, table_match, weighted_match};
use std::io::{Input, Print};

fn main(rt: HostRuntime) {
    let mut reader = rt.reader();
    // Fixed memory: a `Vec` would take it from the heap.
    let mut input = [0u8; 65536];
    let len = streams::read_full(&mut reader, &mut input);
    for case in Cases::of(&input[..len]) {
        let Ok(case) = case else {
            let _ = println!(rt; "?");
            return;
        };
        answer(&rt, case);
    }
}

// Prints the answer to a case. A line that cannot be written is lost.
fn answer<P: Print>(rt: &P, case: Case) {
    let _ = match case {
        Case::Table { m, n, hold, counts } => rt.println(MatchLine(table_match(
            m, n, &counts, hold,
        ))),
        Case::Weighted(w) => rt.println(MatchLine(weighted_match(
            w.m, w.n, w.rows, w.inputs, w.outputs,
        ))),
        Case::Ranked(w) => rt.println(RankLine(rank_form(w.m, w.n, w.rows, w.inputs, w.outputs))),
    };
}

// The C interface: matching, the card and the slot log on numbers and lent lists, as include/crosspoint.h declares them. Every function answers the first
// refusal that applies. A list whose length is fixed is tested first (refusal 2), and a refused call changes nothing in any list. Crate crosspoint_c
// exports them, each with the number that stands for its answer.
#![tactic(auto)]

mod lists;
mod records;

ghost use Rattle.std.specs.Prelude.{◌≡◌, true, [], ◌∷◌, length};
ghost use Rattle.card.specs.Paper.{ports, unless, number_of};
ghost use Rattle.search.specs.First.{numbers};
ghost use Rattle.crosspoint.specs.Paper.{halves, answer_long, weights_long, slot_long, read_long, match_table, match_weights, rank_lists, fresh_lists, slot_lists, check_lists, read_lists, write_lists};
ghost use Rattle.crosspoint.specs.Outcomes.{after, matched, weights, lent, slotted, read_into, checked_number, written_number};

use card::{Arrivals, Card, Refusal};
use matching::Match;
use slot::Record;
use slotlog::Fault;

// The lengths of the lists that are fixed, each in its elements: M, N, D, count and place of a checked log; a card's record; a slot's report.
const CHECKED: usize = 5;

const RECORD: usize = 2056;

const REPORT: usize = 99;

// A match from a table of counts and a hold: refusals 2 (partners, totals), 1, 2, 3.
pub fn crosspoint_match_table(
    m: u32,
    n: u32,
    counts: &[u16],
    hold: u32,
    partners: &mut [u16],
    totals: &mut [u32],
) -> Result<(), Refusal>
    ensures { after (number_of result) (matched partners.new totals.new) ≡ match_table m n counts.now hold (matched partners.old totals.old) }
{
    answer_long(partners.len(), totals.len())?;
    let found = matching::table_match(m, n, counts, hold)?;
    give(found, partners, totals);
    Ok(())
}

// A match from requests and port weights: refusals 2 (all five lists), 1, 5, 6.
pub fn crosspoint_match_weights(
    m: u32,
    n: u32,
    rows: &[u32],
    inputs: &[u32],
    outputs: &[u32],
    partners: &mut [u16],
    totals: &mut [u32],
) -> Result<(), Refusal>
    ensures { after (number_of result) (matched partners.new totals.new) ≡ match_weights m n rows.now inputs.now outputs.now (matched partners.old totals.old) }
{
    weights_long(rows.len(), inputs.len(), outputs.len())?;
    answer_long(partners.len(), totals.len())?;
    let found = matching::weighted_match(
        m,
        n,
        lists::numbers_in(rows),
        lists::numbers_in(inputs),
        lists::numbers_in(outputs),
    )?;
    give(found, partners, totals);
    Ok(())
}

// The rank form, weights in and ranks out: refusals 2 (all three lists), 1, 5, 6.
pub fn crosspoint_rank_form(
    m: u32,
    n: u32,
    rows: &[u32],
    inputs: &mut [u32],
    outputs: &mut [u32],
) -> Result<(), Refusal>
    ensures { after (number_of result) (weights inputs.new outputs.new) ≡ rank_lists m n rows.now (weights inputs.old outputs.old) }
{
    weights_long(rows.len(), inputs.len(), outputs.len())?;
    let form = matching::rank_form(
        m,
        n,
        lists::numbers_in(rows),
        lists::numbers_in(inputs),
        lists::numbers_in(outputs),
    )?;
    inputs.copy_from_slice(&form.inputs);
    outputs.copy_from_slice(&form.outputs);
    Ok(())
}

// A fresh card: refusals 2 (the record), 1, 2 (cells, stamps).
pub fn crosspoint_fresh(
    m: u32,
    n: u32,
    d: u32,
    kept: &mut [u32],
    cells: &mut [u32],
    stamps: &mut [u32],
) -> Result<(), Refusal>
    ensures { after (number_of result) (lent kept.new cells.new stamps.new) ≡ fresh_lists (record { m = m; n = n; d = d }) (lent kept.old cells.old stamps.old) }
{
    long(kept.len() == RECORD)?;
    let fresh = Record::fresh(Card { m, n, d }, cells, stamps)?;
    records::put_record(kept, &fresh);
    Ok(())
}

// One slot: refusals 2 (record, outputs, arriving, report), 7, 2 (cells, stamps), 3, 4.
pub fn crosspoint_slot(
    kept: &mut [u32],
    cells: &mut [u32],
    stamps: &mut [u32],
    hold: u32,
    outputs: &[u16],
    arriving: &[u32],
    report: &mut [u32],
) -> Result<(), Refusal>
    ensures { after (number_of result) (slotted kept.new cells.new stamps.new report.new) ≡ slot_lists hold outputs.now arriving.now (slotted kept.old cells.old stamps.old report.old) }
{
    slot_long(kept.len(), outputs.len(), arriving.len(), report.len())?;
    if !records::record_holds(kept) {
        return Err(Refusal::Record);
    }
    let arrivals = Arrivals {
        outputs: lists::outputs_in(outputs),
        cells: lists::numbers_in(arriving),
    };
    let done = records::record_in(kept).slot(hold, arrivals, cells, stamps);
    let said = done.outcome?;
    records::put_record(kept, &done.record);
    records::put_report(report, &said);
    Ok(())
}

// The whole-log check: refusals 2 (the answer), 8, 1, 9, then the records in order, 3 before 4 in each. A fault has the record's number, counted from 1.
pub fn crosspoint_log_check(log: &[u8], answer: &mut [u32]) -> Result<(), Fault>
    ensures { after (checked_number result) answer.new ≡ check_lists log.now answer.old }
{
    long(answer.len() == CHECKED)?;
    let checked = slotlog::check(log)?;
    let card = checked.card;
    answer.copy_from_slice(&[card.m, card.n, card.d, checked.count, checked.first]);
    Ok(())
}

// One slot of a log: refusals 2 (hold, outputs, cells), 8, 1, 9, 11, then 3 and 4 of that record.
pub fn crosspoint_log_read(
    log: &[u8],
    slot: u32,
    hold: &mut [u32],
    outputs: &mut [u16],
    cells: &mut [u32],
) -> Result<(), Refusal>
    ensures { after (number_of result) (read_into hold.new outputs.new cells.new) ≡ read_lists log.now slot (read_into hold.old outputs.old cells.old) }
{
    read_long(hold.len(), outputs.len(), cells.len())?;
    let found = slotlog::read(log, slot)?;
    hold[0] = found.hold;
    lists::put_outputs(outputs, found.arrivals.outputs);
    cells.copy_from_slice(&found.arrivals.cells);
    Ok(())
}

// The writer: refusals 1, 2, 8, then 3 and 4 by record, then 10. It answers the length written.
pub fn crosspoint_log_write(
    m: u32,
    n: u32,
    d: u32,
    holds: &[u32],
    outputs: &[u16],
    cells: &[u32],
    buffer: &mut [u8],
) -> Result<u32, Refusal>
    ensures { after (written_number result) buffer.new ≡ write_lists m n d holds.now outputs.now cells.now buffer.old }
{
    slotlog::write(Card { m, n, d }, holds, outputs, cells, buffer)
}

// What C has of the check: the refusal in the low half, the record's number in the high half; 0 where the log passes.
pub fn checked_number(outcome: Result<(), Fault>) -> u64
    ensures { result ≡ checked_number outcome }
{
    match outcome {
        Ok(()) => 0,
        Err(fault) => two_halves(u32::from(fault.refusal), fault.record),
    }
}

// What C has of the writer: the refusal in the low half, the length written in the high half.
pub fn written_number(outcome: Result<u32, Refusal>) -> u64
    ensures { result ≡ written_number outcome }
{
    match outcome {
        Ok(length) => two_halves(0, length),
        Err(refusal) => two_halves(u32::from(refusal), 0),
    }
}

// The answer lists of a match: 32 partners, two totals.
#[tactic(auto, unfolding(crate::specs::Paper::answer_long))]
fn answer_long(partners: usize, totals: usize) -> Result<(), Refusal>
    ensures { number_of result ≡ unless (answer_long partners totals) 2 0 }
{
    long(partners == 32 && totals == 2)
}

// Rows and both weights: 32 each.
#[tactic(auto, unfolding(crate::specs::Paper::weights_long))]
fn weights_long(rows: usize, inputs: usize, outputs: usize) -> Result<(), Refusal>
    ensures { number_of result ≡ unless (weights_long rows inputs outputs) 2 0 }
{
    long(rows == 32 && inputs == 32 && outputs == 32)
}

// A slot's record, arrivals (32 each) and report.
#[tactic(auto, unfolding(crate::specs::Paper::slot_long))]
fn slot_long(kept: usize, outputs: usize, arriving: usize, report: usize) -> Result<(), Refusal>
    ensures { number_of result ≡ unless (slot_long kept outputs arriving report) 2 0 }
{
    long(kept == RECORD && outputs == 32 && arriving == 32 && report == REPORT)
}

// What one slot of a log is read into: one hold, 32 outputs, 32 cells.
#[tactic(auto, unfolding(crate::specs::Paper::read_long))]
fn read_long(hold: usize, outputs: usize, cells: usize) -> Result<(), Refusal>
    ensures { number_of result ≡ unless (read_long hold outputs cells) 2 0 }
{
    long(hold == 1 && outputs == 32 && cells == 32)
}

// Refusal 2, where a test of lengths fails.
fn long(passed: bool) -> Result<(), Refusal>
    ensures { number_of result ≡ unless passed 2 0 }
{
    if !passed {
        return Err(Refusal::Length);
    }
    Ok(())
}

// A match in its two lists.
fn give(found: Match, partners: &mut [u16], totals: &mut [u32])
    requires { (length partners.old ≡ ports) × (length totals.old ≡ 2) }
    ensures { (partners.new ≡ numbers found.partners) × (totals.new ≡ found.size ∷ found.weight ∷ []) }
{
    lists::put_outputs(partners, found.partners);
    totals.copy_from_slice(&[found.size, found.weight]);
}

// Two numbers of 32 bits as one of 64.
fn two_halves(low: u32, high: u32) -> u64
    ensures { result ≡ halves low high }
{
    u64::from(low) + u64::from(high) * 4294967296
}

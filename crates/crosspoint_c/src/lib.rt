// The C interface as C calls it: each function of crate crosspoint under its C name, with the same promise, its answer as a number: the refusal's, and 0 where there
// is none; the check and the writer have a second number in the high half. include/crosspoint.h declares them.
#![tactic(auto)]

ghost use Rattle.std.specs.Prelude.{◌≡◌};
ghost use Rattle.crosspoint.specs.Paper.{match_table, match_weights, rank_lists, fresh_lists, slot_lists, check_lists, read_lists, write_lists};
ghost use Rattle.crosspoint.specs.Outcomes.{after, matched, weights, lent, slotted, read_into};

// A match from a table of counts and a hold: refusals 2 (partners, totals), 1, 2, 3.
#[unsafe(no_mangle)]
pub extern "C" fn crosspoint_match_table(
    m: u32,
    n: u32,
    counts: &[u16],
    hold: u32,
    partners: &mut [u16],
    totals: &mut [u32],
) -> u32
    ensures { after result (matched partners.new totals.new) ≡ match_table m n counts.now hold (matched partners.old totals.old) }
{
    card::number(&crosspoint::crosspoint_match_table(m, n, counts, hold, partners, totals))
}

// A match from requests and port weights: refusals 2 (all five lists), 1, 5, 6.
#[unsafe(no_mangle)]
pub extern "C" fn crosspoint_match_weights(
    m: u32,
    n: u32,
    rows: &[u32],
    inputs: &[u32],
    outputs: &[u32],
    partners: &mut [u16],
    totals: &mut [u32],
) -> u32
    ensures { after result (matched partners.new totals.new) ≡ match_weights m n rows.now inputs.now outputs.now (matched partners.old totals.old) }
{
    card::number(&crosspoint::crosspoint_match_weights(
        m, n, rows, inputs, outputs, partners, totals,
    ))
}

// The rank form, weights in and ranks out: refusals 2 (all three lists), 1, 5, 6.
#[unsafe(no_mangle)]
pub extern "C" fn crosspoint_rank_form(
    m: u32,
    n: u32,
    rows: &[u32],
    inputs: &mut [u32],
    outputs: &mut [u32],
) -> u32
    ensures { after result (weights inputs.new outputs.new) ≡ rank_lists m n rows.now (weights inputs.old outputs.old) }
{
    card::number(&crosspoint::crosspoint_rank_form(m, n, rows, inputs, outputs))
}

// A fresh card: refusals 2 (the record), 1, 2 (cells, stamps).
#[unsafe(no_mangle)]
pub extern "C" fn crosspoint_fresh(
    m: u32,
    n: u32,
    d: u32,
    kept: &mut [u32],
    cells: &mut [u32],
    stamps: &mut [u32],
) -> u32
    ensures { after result (lent kept.new cells.new stamps.new) ≡ fresh_lists (record { m = m; n = n; d = d }) (lent kept.old cells.old stamps.old) }
{
    card::number(&crosspoint::crosspoint_fresh(m, n, d, kept, cells, stamps))
}

// One slot: refusals 2 (record, outputs, arriving, report), 7, 2 (cells, stamps), 3, 4.
#[unsafe(no_mangle)]
pub extern "C" fn crosspoint_slot(
    kept: &mut [u32],
    cells: &mut [u32],
    stamps: &mut [u32],
    hold: u32,
    outputs: &[u16],
    arriving: &[u32],
    report: &mut [u32],
) -> u32
    ensures { after result (slotted kept.new cells.new stamps.new report.new) ≡ slot_lists hold outputs.now arriving.now (slotted kept.old cells.old stamps.old report.old) }
{
    card::number(&crosspoint::crosspoint_slot(kept, cells, stamps, hold, outputs, arriving, report))
}

// The whole-log check: refusals 2 (the answer), 8, 1, 9, then the records in order, 3 before 4 in each. The refusal in the low half, the record's
// number, counted from 1, in the high half.
#[unsafe(no_mangle)]
pub extern "C" fn crosspoint_log_check(log: &[u8], answer: &mut [u32]) -> u64
    ensures { after result answer.new ≡ check_lists log.now answer.old }
{
    crosspoint::checked_number(crosspoint::crosspoint_log_check(log, answer))
}

// One slot of a log: refusals 2 (hold, outputs, cells), 8, 1, 9, 11, then 3 and 4 of that record.
#[unsafe(no_mangle)]
pub extern "C" fn crosspoint_log_read(
    log: &[u8],
    slot: u32,
    hold: &mut [u32],
    outputs: &mut [u16],
    cells: &mut [u32],
) -> u32
    ensures { after result (read_into hold.new outputs.new cells.new) ≡ read_lists log.now slot (read_into hold.old outputs.old cells.old) }
{
    card::number(&crosspoint::crosspoint_log_read(log, slot, hold, outputs, cells))
}

// The writer: refusals 1, 2, 8, then 3 and 4 by record, then 10. The refusal in the low half, the length written in the high half.
#[unsafe(no_mangle)]
pub extern "C" fn crosspoint_log_write(
    m: u32,
    n: u32,
    d: u32,
    holds: &[u32],
    outputs: &[u16],
    cells: &[u32],
    buffer: &mut [u8],
) -> u64
    ensures { after result buffer.new ≡ write_lists m n d holds.now outputs.now cells.now buffer.old }
{
    crosspoint::written_number(crosspoint::crosspoint_log_write(
        m, n, d, holds, outputs, cells, buffer,
    ))
}

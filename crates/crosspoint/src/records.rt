// The card's record as a list of 2,056 numbers: M, N, D at 0, 1, 2; the heads from 3; the counts from 1,027; the slot number and the four counters
// from 2,051. And the slot's report as a list of 99. Lists come as C lends them, of a length that the caller has tested. A record's list is tested and then read,
// as specs/Paper has the two: a TryFrom would stand in `slot`, which knows no lists.
ghost use Rattle.std.specs.Prelude.{◌≡◌, true, length};
ghost use Rattle.slot.specs.Answers.{report_of};
ghost use Rattle.crosspoint.specs.Paper.{record_long, record_list, record_in, record_holds, report_long, report_list};

use crate::lists;
use card::{Card, Counters};
use slot::{Record, Report};

// Whether every number of the list is one that its field of the record can hold.
#[tactic(auto, unfolding(crate::specs::Paper::record_holds))]
pub fn record_holds(list: &[u32]) -> bool
    requires { length list.now ≡ record_long }
    ensures { result ≡ record_holds list.now }
{
    lists::holdable(&list[3..1027]) && lists::holdable(&list[1027..2051])
}

// The record that a list says.
pub fn record_in(list: &[u32]) -> Record
    requires { (length list.now ≡ record_long) × (record_holds list.now ≡ true) }
    ensures { result ≡ record_in list.now }
{
    let mut record = Record::of(Card {
        m: list[0],
        n: list[1],
        d: list[2],
    });
    lists::take_counts(&mut record.heads, &list[3..1027]);
    lists::take_counts(&mut record.counts, &list[1027..2051]);
    record.slot = list[2051];
    record.counters = Counters {
        offered: list[2052],
        stored: list[2053],
        dropped: list[2054],
        departed: list[2055],
    };
    record
}

// The record, in a list of its length.
pub fn put_record(list: &mut [u32], given: &Record)
    requires { length list.old ≡ record_long }
    ensures { list.new ≡ record_list given.now }
{
    let Card { m, n, d } = given.card;
    let counters = given.counters;
    list[0..3].copy_from_slice(&[m, n, d]);
    lists::put_counts(&mut list[3..1027], &given.heads);
    lists::put_counts(&mut list[1027..2051], &given.counts);
    list[2051..2056].copy_from_slice(&[
        given.slot,
        counters.offered,
        counters.stored,
        counters.dropped,
        counters.departed,
    ]);
}

// The report, in a list of its length.
pub fn put_report(list: &mut [u32], given: &Report)
    requires { length list.old ≡ report_long }
    ensures { list.new ≡ report_list (report_of given.now) }
{
    lists::put_wide_outputs(&mut list[0..32], given.partners);
    list[32..64].copy_from_slice(&given.cells);
    list[64..96].copy_from_slice(&given.waits);
    list[96..99].copy_from_slice(&[given.size, given.weight, given.dropped]);
}

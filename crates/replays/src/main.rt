// Replays many logs, one after another: each stands behind its length, four bytes, the lowest first. It ends where no whole length is left, or after
// 1,000 logs. A length above 32,017 is taken as 32,017, as the replay reads no further. Memory is fixed.
#![tactic(auto)]

ghost use Rattle.std.specs.Prelude.{◌≤◌, IfSome};

use std::io::{Input, Print, Read};

// Room for a log and one byte more.
const ROOM: u32 = 32017;

fn main(rt: HostRuntime) {
    let mut input = rt.reader();
    for _ in 0..1000u32 {
        let Some(size) = next_size(&mut input) else {
            return;
        };
        let mut log = [0u8; ROOM as usize];
        replay_into(&rt, &mut input, &mut log[..size]);
    }
}

// The length before the next log, if there is one.
fn next_size<R: Read>(input: &mut R) -> Option<usize>
    ensures { IfSome result (λ size. size ≤ 32017) }
{
    let mut length = [0u8; 4];
    if streams::read_full(input, &mut length) < length.len() {
        return None;
    }
    Some(u32::from_le_bytes(length).min(ROOM) as usize)
}

// Reads a log into this room, and replays it.
fn replay_into<P: Print, R: Read>(rt: &P, input: &mut R, log: &mut [u8]) {
    let len = streams::read_full(input, log);
    let _ = playback::replay(rt, &log[..len]);
}

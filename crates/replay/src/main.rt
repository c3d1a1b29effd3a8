// Reads a log on standard input and prints its replay. A log has at most 32,016 bytes: one byte more is read, so that a longer one is refused.
// Memory is fixed: a Vec would take it from the heap.
#![tactic(auto)]

use std::io::Input;

fn main(rt: HostRuntime) {
    let mut input = rt.reader();
    let mut log = [0u8; 32017];
    let len = streams::read_full(&mut input, &mut log);
    let _ = playback::replay(&rt, &log[..len]);
}

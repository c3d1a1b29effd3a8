// A read that fills its room, for the programs. Nothing is allocated.
#![tactic(auto)]

ghost use Rattle.std.specs.Prelude.{◌≤◌, length, take};
ghost use Rattle.std.specs.Io.KnownBytes.{Consumes};

use std::io::Read;

// Reads until the room is full, the input ends or a read fails, and says how many bytes it put at the start of the room: the next ones of the reader.
// std's `read_exact` says nothing of what it read before it failed, and `read_to_end` takes memory.
pub fn read_full<R: Read>(reader: &mut R, room: &mut [u8]) -> usize
    ensures inside { result ≤ length room.new }
    ensures next { Consumes (R.remaining reader.old) (R.remaining reader.new) (take result room.new) }
{
    // `done` grows by as many bytes as came, so no `for` counts it.
    let mut done = 0;
    while done < room.len() {
        let more = read_some(reader, &mut room[done..]);
        if more == 0 {
            break;
        }
        done += more;
    }
    done
}

// One read: how many bytes came, and 0 where the input has ended or the read failed: `read_full` promises the same of both.
fn read_some<R: Read>(reader: &mut R, room: &mut [u8]) -> usize
    ensures inside { result ≤ length room.new }
    ensures next { Consumes (R.remaining reader.old) (R.remaining reader.new) (take result room.new) }
{
    reader.read(room).unwrap_or(0)
}

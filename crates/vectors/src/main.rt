// Replays what crate qoi 0.4.1 answered, as tools/record-vectors recorded it, and says for each group of cases how
// many the port answers the same.
//
// The list comes on standard input. A line is a case, and an empty line is none: empty lines fill the pages of 65,536
// bytes, so that no case lies in two.
// A read or a write that fails ends the program with its error.
#![tactic(auto)]

ghost use Rattle.std.specs.Io.{ReadsAtMost};

use std::io;
use std::io::Read;
use tally::Tally;

mod case;
mod decodes;
mod encodes;
mod groups;
mod hex;
mod tally;

const PAGE: usize = 65536;

// Reads until the room is full or the input ends, and answers how many bytes it read.
fn read_full<R: Read>(input: &mut R, room: &mut [u8]) -> io::Result<usize>
    ensures { ReadsAtMost result room.new }
{
    let mut done = 0;
    while done < room.len() {
        let n = input.read(&mut room[done..])?;
        if n == 0 {
            break;
        }
        done += n;
    }
    Ok(done)
}

// A proved loop has to end, and nothing says that a list does: it is read for a bounded number of pages.
fn main(rt: HostRuntime) -> io::Result<()> {
    let mut input = rt.reader();
    let mut tally = Tally::new();
    for _ in 0..0x1_0000u32 {
        let mut room = [0u8; PAGE];
        let size = read_full(&mut input, &mut room)?;
        let page = &room[..size];
        for line in page.split(|byte| *byte == b'\n') {
            if let Some(letter) = line.first() {
                tally.add(*letter, case::agrees(line));
            }
        }
        if page.len() < PAGE {
            break;
        }
    }
    tally.report(&rt)
}

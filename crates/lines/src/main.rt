// Prints qoicheck's line of each message of a list. The list comes on standard input: before each message stands its
// length, three bytes, the high one first. A read that fails counts as the input's end.
#![tactic(auto)]

ghost use Rattle.std.specs.Prelude.{◌≤◌, length};

use std::io::{Read, Stdin, Stdout};

// Reads until the buffer is full, the input ends or a read fails, and answers how many bytes it read.
fn read_full(mut stdin: Stdin, buf: &mut [u8]) -> usize
    ensures { result ≤ length buf.new }
{
    let mut done = 0;
    while done < buf.len() {
        match stdin.read(&mut buf[done..]) {
            Ok(0) | Err(_) => break,
            Ok(n) => done += n,
        }
    }
    done
}

// Prints the line of the next message. None at the end of the list, and for a message of more than 65,537 bytes.
fn next_line(stdin: Stdin, stdout: Stdout) -> Option<()> {
    let mut length = [0u8; 3];
    if read_full(stdin, &mut length) < length.len() {
        return None;
    }
    let [high, middle, low] = length;
    let length = u32::from_be_bytes([0, high, middle, low]) as usize;
    let mut input = [0u8; 65537];
    let room = input.get_mut(..length)?;
    let size = read_full(stdin, room);
    report::print_line(stdout, &room[..size]);
    Some(())
}

// A proved loop has to end, and nothing says that a list does: it has at most 1,000 messages.
fn main(rt: HostRuntime) {
    for _ in 0..1000u32 {
        if next_line(rt.stdin(), rt.stdout()).is_none() {
            break;
        }
    }
}

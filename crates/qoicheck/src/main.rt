// Reads a message from standard input and prints one line: `ok` and its figures, `refused` and the number, or
// `too long`. A read that fails counts as the input's end.
#![tactic(auto)]

ghost use Rattle.std.specs.Prelude.{◌≤◌, length};

use std::io::{Read, Stdin};

// Reads until the buffer is full, the input ends or a read fails, and answers how many bytes it read.
fn read_full(mut stdin: Stdin, buf: &mut [u8]) -> usize
    ensures { result ≤ length buf.new }
{
    let mut done = 0;
    while done < buf.len() {
        match stdin.read(&mut buf[done..]) {
            Ok(0) | Err(_) => break,
            Ok(n) => done += n,
        }
    }
    done
}

fn main(rt: HostRuntime) {
    // One byte more than is checked tells an input that is too long.
    let mut input = [0u8; 65537];
    let n = read_full(rt.stdin(), &mut input);
    report::print_line(rt.stdout(), &input[..n]);
}

// The line that `qoicheck` prints: what the strict check says of an input.
#![tactic(auto)]

ghost use Rattle.std.specs.Prelude.{◌≡◌, length};
ghost use Rattle.text.specs.Text.{text_of, said, put_over};
ghost use Rattle.pixel.specs.Words.{worded_in};
ghost use Rattle.report.specs.Line.{ok_parts, refused_parts, line_of};

use header::Header;
use pixel::error;
use pixel::error::Error;
use std::io::Stdout;
use strict::Accepted;
use text::Text;

// A longer input is not checked.
const LONGEST: usize = 65_536;

// Writes the line of an input at the front of an output; nothing where there is no room for it.
pub fn line(input: &[u8], out: &mut [u8]) -> Result<usize, Error>
    ensures value { result ≡ worded_in (line_of input.now) (length out.old) }
    ensures out_after { out.new ≡ put_over (line_of input.now) out.old }
{
    error::put_text(told(input), out)
}

// Prints the line of an input, and answers how many bytes it has. A write that fails is let go.
pub fn print_line(stdout: Stdout, input: &[u8]) -> usize
    ensures { result ≡ length (line_of input.now) }
{
    let mut out = [0u8; 160];
    // It is never refused: no line is longer than 160 bytes.
    let size = line(input, &mut out).unwrap_or(0);
    let _ = stdout.write_all(&out[..size]);
    size
}

// What is said of an input.
#[tactic(auto, using(crate::proofs::LineLaws::long_line))]
fn told(input: &[u8]) -> Text
    ensures { text_of result ≡ line_of input.now }
{
    if LONGEST < input.len() {
        return Text::empty().words(b"too long\n");
    }
    match strict::strict(input) {
        Err(e) => refused(e.number()),
        Ok(
            Accepted {
                header,
                chunks,
                bytes,
            },
        ) => ok(header, chunks as u64, bytes as u64),
    }
}

// What is said of a message that is accepted.
fn ok(header: Header, chunks: u64, bytes: u64) -> Text
    ensures { text_of result ≡ said (ok_parts header chunks bytes) }
{
    Text::empty()
        .figure(b"ok ", u64::from(header.width))
        .figure(b" ", u64::from(header.height))
        .figure(b" ", u64::from(header.channels.as_u8()))
        .figure(b" ", u64::from(header.colorspace.as_u8()))
        .figure(b" ", chunks)
        .figure(b" ", bytes)
        .words(b"\n")
}

// What is said of one that is refused.
fn refused(number: u64) -> Text
    ensures { text_of result ≡ said (refused_parts number) }
{
    Text::empty().figure(b"refused ", number).words(b"\n")
}

// Runs made-up states of a list, and prints a line for each: what the run answers, how many bytes of the output it
// changed, and what writing the state's record answers; of a record that is refused, its refusal alone.
//
// The list comes on standard input, 1,024 bytes a state: the length of a record, two bytes, and the record, padded to
// 300; eight bytes, how many pixels more are left than the picture has from the pixel position on, modulo 2^64; eight
// bytes, the message's number that is expected; one byte, how many steps to run; the length of a message, two bytes,
// and the message, padded. Numbers have their high byte first.
//
// A read or a write that fails ends the program with its error.
#![tactic(auto)]

ghost use Rattle.std.specs.Io.{ReadsAtMost};

use pixel::error::{Error, FourFigures};
use resume::{Decoder, Progress};
use std::io;
use std::io::Read;

// The byte that an output is full of before a run.
const FILL: u8 = 0xee;

// 0 and the figures of what was done, or the number and the figures of a refusal.
#[derive(Clone, Copy)]
struct Answer {
    number: u64,
    figures: FourFigures,
}

impl From<Result<FourFigures, Error>> for Answer {
    fn from(answered: Result<FourFigures, Error>) -> Self {
        match answered {
            Ok(figures) => Answer { number: 0, figures },
            Err(e) => Answer {
                number: e.number(),
                figures: e.figures(),
            },
        }
    }
}

impl Answer {
    // Prints the five numbers, each by a write of its own.
    fn print(self, rt: &impl Print) -> io::Result<()> {
        let [a, b, c, d] = self.figures;
        for number in [self.number, a, b, c, d] {
            print!(rt; "{number} ")?;
        }
        Ok(())
    }
}

// An entry of the list, its fields without their padding.
#[derive(Clone, Copy)]
struct Entry<'a> {
    record: &'a [u8],
    more: u64,
    number: u64,
    steps: u8,
    message: &'a [u8],
}

// What a padded field holds after its length. None where that is longer than the field.
fn unpadded(field: &[u8]) -> Option<&[u8]> {
    let (length, bytes) = field.split_first_chunk::<2>()?;
    bytes.get(..usize::from(u16::from_be_bytes(*length)))
}

impl<'a> Entry<'a> {
    fn read(bytes: &'a [u8; 1024]) -> Option<Self> {
        let (record, bytes) = bytes.split_first_chunk::<302>()?;
        let (more, bytes) = bytes.split_first_chunk::<8>()?;
        let (number, bytes) = bytes.split_first_chunk::<8>()?;
        let (steps, message) = bytes.split_first()?;
        Some(Entry {
            record: unpadded(record)?,
            more: u64::from_be_bytes(*more),
            number: u64::from_be_bytes(*number),
            steps: *steps,
            message: unpadded(message)?,
        })
    }
}

// What a run answers. With more to do: 256, and byte position, pixel position, pixels left and message number of the
// next state.
fn run(decoder: Decoder, entry: Entry, out: &mut [u8]) -> Answer {
    let ran = decoder.run(entry.message, out, u64::from(entry.steps));
    let next = ran.decoder;
    match ran.answer {
        Ok(Progress::More) => Answer {
            number: 256,
            figures: [
                next.at as u64,
                next.pixel as u64,
                next.left as u64,
                next.number,
            ],
        },
        Ok(Progress::Done { size, used }) => Answer::from(Ok([size as u64, used as u64, 0, 0])),
        Err(e) => Answer::from(Err(e)),
    }
}

// Prints the line of an entry.
fn print_line(rt: &impl Print, entry: Entry) -> io::Result<()> {
    let started = Decoder::idle().take_up(entry.number, entry.record);
    if let Err(e) = started.answer {
        Answer::from(Err(e)).print(rt)?;
        return println!(rt);
    }
    let decoder = Decoder {
        left: started.decoder.left.wrapping_add(entry.more as usize),
        ..started.decoder
    };
    let mut out = [FILL; 4096];
    run(decoder, entry, &mut out).print(rt)?;
    let changed = out.iter().filter(|byte| **byte != FILL).count();
    print!(rt; "{changed} ")?;
    let mut record = [0u8; 300];
    let written = decoder.write_record(&mut record);
    Answer::from(written.map(|size| [size as u64, 0, 0, 0])).print(rt)?;
    println!(rt)
}

// Reads until the room is full or the input ends, and answers how many bytes it read.
fn read_full<R: Read>(input: &mut R, room: &mut [u8]) -> io::Result<usize>
    ensures { ReadsAtMost result room.new }
{
    let mut done = 0;
    while done < room.len() {
        let n = input.read(&mut room[done..])?;
        if n == 0 {
            break;
        }
        done += n;
    }
    Ok(done)
}

// A proved loop has to end, and nothing says that a list does: it has at most a million states. What is no entry has no
// line.
fn main(rt: HostRuntime) -> io::Result<()> {
    let mut input = rt.reader();
    for _ in 0..1_000_000u32 {
        let mut bytes = [0u8; 1024];
        if read_full(&mut input, &mut bytes)? < bytes.len() {
            break;
        }
        if let Some(entry) = Entry::read(&bytes) {
            print_line(&rt, entry)?;
        }
    }
    Ok(())
}

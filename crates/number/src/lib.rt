// Numbers in groups of seven bits, low group first: what records are written in.
#![tactic(auto)]

ghost use Rattle.std.specs.Prelude.{◌≡◌, ◌≤◌, length};
ghost use Rattle.number.specs.Seven.{seven_bits, read_number, read_more as read_more_of, written_number, writing_number, group_below as group_below_of};
ghost use Rattle.number.specs.Asked.{GroupFits};

use pixel::error::Error;

// A number that was read, and how many bytes it took.
#[derive(Clone, Copy, Debug, PartialEq, Eq, Hash)]
pub struct Number {
    pub value: u64,
    pub used: usize,
}

// The number that starts at an offset of a part. A refusal carries that offset, whichever byte fails.
pub fn read(bytes: &[u8], start: usize) -> Result<Number, Error>
    ensures { result ≡ read_number bytes.now start }
{
    if bytes.len() <= start {
        return Err(Error::UnexpectedBufferEnd { at: start });
    }
    let byte = bytes[start];
    if byte < 128 {
        return Ok(Number {
            value: u64::from(byte),
            used: 1,
        });
    }
    group_below(byte, read_more(start, 8, &bytes[start + 1..]))
}

// What a part says where a group with the top bit set stands before it, and `more` and one bytes may follow; the number
// starts at `start`.
fn read_more(start: usize, more: usize, bytes: &[u8]) -> Result<Number, Error>
    requires { more ≤ 8 }
    ensures { result ≡ read_more_of start more bytes.now }
{
    let [byte, after @ ..] = bytes else {
        return Err(Error::UnexpectedBufferEnd { at: start });
    };
    if more == 0 {
        if *byte == 1 {
            return Ok(Number { value: 1, used: 1 });
        }
        return Err(Error::BadState { at: start });
    }
    if *byte < 128 {
        if *byte == 0 {
            return Err(Error::BadState { at: start });
        }
        return Ok(Number {
            value: u64::from(*byte),
            used: 1,
        });
    }
    group_below(*byte, read_more(start, more - 1, after))
}

// A group with the top bit set before what the bytes after it say.
#[tactic(auto, unfolding(crate::specs::Seven::group_below))]
fn group_below(byte: u8, after: Result<Number, Error>) -> Result<Number, Error>
    requires { GroupFits byte after }
    ensures { result ≡ group_below_of byte after }
{
    let Number { value, used } = after?;
    Ok(Number {
        value: u64::from(byte - 128) + 128 * value,
        used: used + 1,
    })
}

// How many bytes a number takes: 1 to 10.
#[tactic(auto, using(crate::proofs::Laws::length_by_bits))]
pub fn len(value: u64) -> usize
    ensures { result ≡ length (seven_bits value) }
{
    value.max(1).ilog2() as usize / 7 + 1
}

// Writes a number at the front of a part; bytes after it stay, and without room all do.
pub fn write(value: u64, out: &mut [u8]) -> Result<usize, Error>
    ensures { (result ≡ writing_number value out.old) × (out.new ≡ written_number value out.old) }
{
    let required = len(value);
    if out.len() < required {
        return Err(Error::OutputBufferTooSmall {
            size: out.len(),
            required,
        });
    }
    let last = required - 1;
    let mut left = value;
    for at in 0..last {
        out[at] = (128 + left % 128) as u8;
        left /= 128;
    }
    out[last] = left as u8;
    Ok(required)
}

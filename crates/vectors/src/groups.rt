// What each group of cases asks of the port. What is no case of its group has no answer.
use crate::{decodes, encodes};
use header::Header;
use pixel::error::{Error, FourFigures};
use pixel::types::{Channels, ColorSpace};

// The figures of what was accepted, or the refusal.
pub type Answer = Result<FourFigures, Error>;

// The port's answer to a case of a group.
pub fn asked(group: u8, input: &[u8]) -> Option<Answer> {
    match group {
        b'a'..=b'd' => header_read(input),
        b'e' => header_made(input),
        b'f' => room(input),
        b'g' => header_written(input),
        b'h' => kind::<Channels>(input),
        b'i' => kind::<ColorSpace>(input),
        b'j'..=b'l' => decodes::asked(input),
        b'm'..=b'o' => encodes::asked(input),
        _ => None,
    }
}

// The header that a message starts with, by both names of the function.
fn header_read(message: &[u8]) -> Option<Answer> {
    let read = Header::decode(message);
    if read != header::decode_header(message) {
        return None;
    }
    Some(read.map(|header| {
        [
            u64::from(header.width),
            u64::from(header.height),
            u64::from(header.channels.as_u8()),
            u64::from(header.colorspace.as_u8()),
        ]
    }))
}

// The header that ten bytes name: width, height, channels, colour space.
fn header_named(named: &[u8; 10]) -> Result<Header, Error> {
    let [w0, w1, w2, w3, h0, h1, h2, h3, channels, colorspace] = *named;
    Header::try_new(
        u32::from_be_bytes([w0, w1, w2, w3]),
        u32::from_be_bytes([h0, h1, h2, h3]),
        Channels::try_from(u64::from(channels))?,
        ColorSpace::try_from(u64::from(colorspace))?,
    )
}

// A header made of its figures, and the sums over it.
fn header_made(input: &[u8]) -> Option<Answer> {
    let named = <&[u8; 10]>::try_from(input).ok()?;
    Some(header_named(named).map(|header| {
        [
            header.n_pixels() as u64,
            header.n_bytes() as u64,
            header.encode_max_len() as u64,
            0,
        ]
    }))
}

// The room for a width, a height and a byte of channels.
fn room(input: &[u8]) -> Option<Answer> {
    let [w0, w1, w2, w3, h0, h1, h2, h3, channels] = *<&[u8; 9]>::try_from(input).ok()?;
    let width = u32::from_be_bytes([w0, w1, w2, w3]);
    let height = u32::from_be_bytes([h0, h1, h2, h3]);
    let room = header::encode_max_len(width, height, channels);
    Some(Ok([room as u64, 0, 0, 0]))
}

// The fourteen bytes of a header that ten name, with those that the Rust wrote after the ten.
fn header_written(input: &[u8]) -> Option<Answer> {
    let (named, written) = input.split_first_chunk::<10>()?;
    match header_named(named) {
        Ok(header) if header.encode().as_slice() != written => None,
        made => Some(made.map(|_| [0; 4])),
    }
}

// One byte as channels or as a colour space.
fn kind<K: TryFrom<u64, Error = Error> + Into<u8>>(input: &[u8]) -> Option<Answer> {
    let [byte] = input else {
        return None;
    };
    Some(K::try_from(u64::from(*byte)).map(|kind| {
        let number: u8 = kind.into();
        [u64::from(number), 0, 0, 0]
    }))
}

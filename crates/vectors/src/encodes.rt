// What a case of an encode asks of the port. Its input: four bytes, the width; four, the height; one, the colour
// space; two, the length of the pixels' bytes, all big-endian; those bytes; and the lent output's bytes as the Rust
// left them, which were all 0xa5 before.
use crate::groups::Answer;
use encode::Encoder;
use pixel::error::Error;
use pixel::types::ColorSpace;

// An encode by the steps over an encoder.
fn by_encoder(
    pixels: &[u8],
    width: u32,
    height: u32,
    colorspace: u8,
    out: &mut [u8],
) -> Result<usize, Error> {
    let encoder = Encoder::new(pixels, width, height)?;
    let colorspace = ColorSpace::try_from(u64::from(colorspace))?;
    encoder
        .with_colorspace(colorspace)
        .encode_to_buf(pixels, out)
}

// An encode into an output as long as the Rust's, if it leaves there what the Rust left.
fn lent<F: FnOnce(&mut [u8]) -> Result<usize, Error>>(left: &[u8], encode: F) -> Option<Answer>
    requires { F.IsAlwaysCallable encode }
{
    let mut room = [0xa5u8; 2048];
    let out = room.get_mut(..left.len())?;
    let encoded = encode(out);
    if *out != *left {
        return None;
    }
    Some(encoded.map(|size| [size as u64, 0, 0, 0]))
}

// The port's answer to a case: that in which every call agrees that can take the colour space, each with a room of its
// own.
pub fn asked(input: &[u8]) -> Option<Answer> {
    let (figures, bytes) = input.split_first_chunk::<11>()?;
    let [w0, w1, w2, w3, h0, h1, h2, h3, colorspace, l0, l1] = *figures;
    let width = u32::from_be_bytes([w0, w1, w2, w3]);
    let height = u32::from_be_bytes([h0, h1, h2, h3]);
    let length = u16::from_be_bytes([l0, l1]);
    let (pixels, left) = bytes.split_at_checked(usize::from(length))?;
    let answer = lent(left, |out| {
        encode::encode(pixels, width, height, u64::from(colorspace), out)
    })?;
    let by_steps = lent(left, |out| {
        by_encoder(pixels, width, height, colorspace, out)
    });
    if by_steps != Some(answer) {
        return None;
    }
    if colorspace != 0 {
        return Some(answer);
    }
    // In sRGB alone.
    let to_buf = lent(left, |out| {
        encode::encode_to_buf(out, pixels, width, height)
    });
    to_buf.filter(|other| *other == answer)
}

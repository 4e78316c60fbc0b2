// One chunk of a message: what its first bytes say, and the pixel that a chunk of colour makes of the one before it.
#![tactic(auto)]

ghost use Rattle.std.specs.Prelude.{◌≡◌, [], ◌≤◌, length, take};
ghost use Rattle.pixel.specs.Colour.{alpha as alpha_of, clear_pixel, with_alpha};
ghost use Rattle.pixel.specs.Packed.{unpacked};
ghost use Rattle.pixel.specs.Types.{channels_number};
ghost use Rattle.rules.specs.Chunk.{chunk_at, colour_of, size_of, shifted as shifted_by};
ghost use Rattle.rules.specs.Bytes.{same_bytes};
ghost use Rattle.rules.specs.Reading.{marker};
ghost use Rattle.rules.specs.Decode.{decoder_reads_rgba};
ghost use Rattle.chunk.specs.Found.{found_of, chunk_of, ending_at};

use pixel::consts::{
    QOI_OP_DIFF, QOI_OP_LUMA, QOI_OP_RGB, QOI_OP_RGBA, QOI_OP_RUN, QOI_PADDING, QOI_PADDING_SIZE,
};
use pixel::error::Error;
use pixel::packed;
use pixel::types::Channels;

// A chunk that makes its pixel from the one before it, and is stored.
#[derive(Clone, Copy, Debug, PartialEq, Eq, Hash)]
pub enum Colour {
    // Red, green and blue difference, each plus 2.
    Diff(u8, u8, u8),
    // The green difference plus 32; red less green and blue less green, each plus 8.
    Luma(u8, u8, u8),
    Rgb(u8, u8, u8),
    Rgba(u8, u8, u8, u8),
    // An ff that is not consumed: the previous pixel again.
    Stuck,
}

// A chunk that a part of a message starts with.
#[derive(Clone, Copy, Debug, PartialEq, Eq, Hash)]
pub enum Found {
    // The pixel of that slot.
    Index(u8),
    // The previous pixel, that number of times.
    Run(u8),
    Colour(Colour),
}

// The chunk that a part starts with, in a source of these channels; none where its bytes are not all there.
pub fn read(source: Channels, part: &[u8]) -> Option<Found>
    ensures { found_of result ≡ chunk_at (decoder_reads_rgba (channels_number source)) part.now }
{
    let (&byte, rest) = part.split_first()?;
    match byte {
        ..QOI_OP_DIFF => Some(Found::Index(byte)),
        QOI_OP_DIFF..QOI_OP_LUMA => Some(Found::Colour(Colour::Diff(
            byte / 16 % 4,
            byte / 4 % 4,
            byte % 4,
        ))),
        QOI_OP_LUMA..QOI_OP_RUN => match rest {
            [second, ..] => Some(Found::Colour(Colour::Luma(byte % 64, second / 16, second % 16))),
            _ => None,
        },
        QOI_OP_RGB => match rest {
            [r, g, b, ..] => Some(Found::Colour(Colour::Rgb(*r, *g, *b))),
            _ => None,
        },
        QOI_OP_RGBA => match (source, rest) {
            (Channels::Rgba, [r, g, b, a, ..]) => Some(Found::Colour(Colour::Rgba(*r, *g, *b, *a))),
            (Channels::Rgb, [_, _, _, _, _, _, _, ..]) => Some(Found::Colour(Colour::Stuck)),
            _ => None,
        },
        QOI_OP_RUN.. => Some(Found::Run(byte % 64 + 1)),
    }
}

// The marker test of a part, which is what follows the last pixel: 1 for too few bytes, 8 for others than the marker's.
pub fn read_end(part: &[u8]) -> Result<(), Error>
    ensures { result ≡ ending_at part.now }
{
    let Some((first, _)) = part.split_first_chunk::<QOI_PADDING_SIZE>() else {
        return Err(Error::UnexpectedBufferEnd { at: 0 });
    };
    if *first == QOI_PADDING {
        Ok(())
    } else {
        Err(Error::InvalidPadding)
    }
}

// The alpha that a chunk of colour leaves.
#[tactic(auto, unfolding(rules::specs::Chunk::colour_of))]
pub fn alpha(previous: u8, colour: Colour) -> u8
    ensures { result ≡ alpha_of (colour_of [] (with_alpha clear_pixel previous) (chunk_of colour)) }
{
    match colour {
        Colour::Rgba(.., a) => a,
        Colour::Diff(..) | Colour::Luma(..) | Colour::Rgb(..) | Colour::Stuck => previous,
    }
}

// The packed pixel of the colour that a chunk makes of the previous one, with the alpha that is handed in: a loop
// that took it out of each pixel would wait for it.
#[tactic(auto, unfolding(rules::specs::Chunk::colour_of, pixel::specs::Packed::unpacked))]
pub fn recolour(previous: u32, alpha: u8, colour: Colour) -> u32
    ensures { unpacked result ≡ with_alpha (colour_of [] (unpacked previous) (chunk_of colour)) alpha }
{
    match colour {
        Colour::Diff(r, g, b) => shifted(
            previous,
            alpha,
            r.wrapping_sub(2),
            g.wrapping_sub(2),
            b.wrapping_sub(2),
        ),
        Colour::Luma(g, r, b) => {
            let near = g.wrapping_sub(40);
            shifted(
                previous,
                alpha,
                near.wrapping_add(r),
                g.wrapping_sub(32),
                near.wrapping_add(b),
            )
        }
        Colour::Rgb(r, g, b) | Colour::Rgba(r, g, b, _) => packed::pack(r, g, b, alpha),
        Colour::Stuck => packed::pack(
            packed::red(previous),
            packed::green(previous),
            packed::blue(previous),
            alpha,
        ),
    }
}

// How many bytes of the message a chunk of colour takes.
#[tactic(auto, unfolding(rules::specs::Chunk::size_of))]
pub fn size(colour: Colour) -> usize
    ensures { result ≡ size_of (chunk_of colour) }
{
    match colour {
        Colour::Diff(..) => 1,
        Colour::Luma(..) => 2,
        Colour::Rgb(..) => 4,
        Colour::Rgba(..) => 5,
        Colour::Stuck => 0,
    }
}

// A packed pixel with this alpha and a difference added to each colour.
#[tactic(auto, unfolding(pixel::specs::Packed::unpacked))]
fn shifted(p: u32, a: u8, r: u8, g: u8, b: u8) -> u32
    ensures { unpacked result ≡ shifted_by (with_alpha (unpacked p) a) r g b }
{
    packed::pack(
        packed::red(p).wrapping_add(r),
        packed::green(p).wrapping_add(g),
        packed::blue(p).wrapping_add(b),
        a,
    )
}

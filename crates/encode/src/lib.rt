// The encoder to a lent output: header, chunks, marker.
#![tactic(auto)]

ghost use Rattle.std.specs.Prelude.{◌≡◌, length};
ghost use Rattle.pixel.specs.Types.{channels_number};
ghost use Rattle.header.specs.Header.{encoded_room, pixel_count, with_color_space};
ghost use Rattle.rules.specs.Bytes.{Puts};
ghost use Rattle.rules.specs.Encode.{stream_of, picture_header, encoding, encoding_under};
ghost use Rattle.encode.specs.Asked.{Fits, Framed, picture_bytes};
ghost use Rattle.encode.specs.Encoded.{encoder_of, Encodes};

use header::Header;
use pixel::consts::QOI_PADDING;
use pixel::error::Error;
use pixel::types::{Channels, ColorSpace};

mod colour;
mod picture;
mod put;
mod run;

// What a picture is encoded as.
#[derive(Clone, Copy, Debug, PartialEq, Eq, Hash)]
pub struct Encoder {
    pub header: Header,
}

impl Encoder {
    // For a picture of these dimensions: its length gives the channels, and the colour space is sRGB.
    pub fn new(pixels: &[u8], width: u32, height: u32) -> Result<Self, Error>
        ensures { result ≡ encoder_of (picture_header pixels.now width height) }
    {
        let header = Header::try_new(width, height, Channels::default(), ColorSpace::default())?;
        let size = pixels.len();
        let count = header.n_pixels();
        if size % count != 0 {
            return Err(Error::InvalidImageLength {
                size,
                width,
                height,
            });
        }
        let channels = Channels::try_from((size / count) as u64)?;
        Ok(Encoder {
            header: header.with_channels(channels),
        })
    }

    pub fn with_colorspace(self, colorspace: ColorSpace) -> Self
        ensures { result ≡ record { header = with_color_space self.header colorspace } }
    {
        Encoder {
            header: self.header.with_colorspace(colorspace),
        }
    }

    pub fn channels(self) -> Channels
        ensures { result ≡ self.header.channels }
    {
        self.header.channels
    }

    pub fn header(self) -> Header
        ensures { result ≡ self.header }
    {
        self.header
    }

    // The room that an encode asks for, saturating.
    pub fn required_buf_len(self) -> usize
        ensures { result ≡ encoded_room self.header.width self.header.height
            (channels_number self.header.channels) }
    {
        self.header.encode_max_len()
    }

    // Encodes the picture. Bytes of the output after the stream stay.
    pub fn encode_to_buf(self, pixels: &[u8], out: &mut [u8]) -> Result<usize, Error>
        ensures { Encodes (encoding_under pixels.now (length out.old) self.header)
            out.old result out.new }
    {
        let header = self.header;
        let Header { width, height, .. } = header;
        if !header.dimensions_fit() {
            return Err(Error::InvalidImageDimensions { width, height });
        }
        let given = pixels.len();
        if given != header.n_bytes() {
            return Err(Error::InvalidImageLength {
                size: given,
                width,
                height,
            });
        }
        let size = out.len();
        let required = header.encode_max_len();
        if size < required {
            return Err(Error::OutputBufferTooSmall { size, required });
        }
        Ok(write_stream(pixels, header, out))
    }
}

// Encodes a picture of three or four channels. Bytes of the output after the stream stay.
pub fn encode(
    pixels: &[u8],
    width: u32,
    height: u32,
    colorspace: u64,
    out: &mut [u8],
) -> Result<usize, Error>
    ensures { Encodes (encoding pixels.now width height colorspace (length out.old))
        out.old result out.new }
{
    let encoder = Encoder::new(pixels, width, height)?;
    let space = ColorSpace::try_from(colorspace)?;
    encoder.with_colorspace(space).encode_to_buf(pixels, out)
}

// The same in sRGB, with the arguments in the order of crate qoi.
pub fn encode_to_buf(out: &mut [u8], pixels: &[u8], width: u32, height: u32) -> Result<usize, Error>
    ensures { Encodes (encoding pixels.now width height 0 (length out.old))
        out.old result out.new }
{
    encode(pixels, width, height, 0, out)
}

// Writes header, chunks and marker, and answers how many bytes they are.
fn write_stream(pixels: &[u8], header: Header, out: &mut [u8]) -> usize
    requires { Framed header pixels.now out.old }
    ensures { Puts 0 (stream_of header pixels.now) out.old result out.new }
{
    let start = put::bytes(out, 0, header.encode());
    let end = write_chunks(pixels, header, out, start);
    put::bytes(out, end, QOI_PADDING)
}

// Writes the chunks of a header's pixels at a place, and answers where they end.
fn write_chunks(pixels: &[u8], header: Header, out: &mut [u8], start: usize) -> usize
    requires { Fits pixels.now (pixel_count header) (channels_number header.channels) out.old start }
    ensures { Puts start
        (picture_bytes (pixel_count header) (channels_number header.channels) pixels.now)
        out.old result out.new }
{
    match header.channels {
        Channels::Rgb => picture::write(pixels.as_chunks::<3>().0, out, start),
        Channels::Rgba => picture::write(pixels.as_chunks::<4>().0, out, start),
    }
}

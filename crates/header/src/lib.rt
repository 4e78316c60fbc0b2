// The fourteen header bytes: read and written, the limits on dimensions, and the room that a picture may need.
#![tactic(auto)]

ghost use Rattle.std.specs.Prelude.{◌≡◌, ◌+◌, ◌*◌, ◌≤◌, length};
ghost use Rattle.pixel.specs.Types.{channels_number};
ghost use Rattle.header.specs.Header.{header_bytes, header_of, header_from, dimensions_fit as dimensions_fit_of, default_header, with_channels as with_channels_of, with_color_space, pixel_count, pixel_bytes, encoded_room, saturated, number_at as number_at_of};

use pixel::consts::{QOI_HEADER_SIZE, QOI_MAGIC, QOI_PADDING_SIZE, QOI_PIXELS_MAX};
use pixel::error::Error;
use pixel::types::{Channels, ColorSpace};

#[derive(Clone, Copy, Debug, PartialEq, Eq, Hash)]
pub struct Header {
    pub width: u32,
    pub height: u32,
    pub channels: Channels,
    pub colorspace: ColorSpace,
}

impl Default for Header {
    ghost is_default = { λ header. header ≡ default_header };

    // One pixel, three channels, sRGB.
    fn default() -> Self {
        Header {
            width: 1,
            height: 1,
            channels: Channels::default(),
            colorspace: ColorSpace::default(),
        }
    }
}

impl Header {
    // A header of 1 to 400,000,000 pixels.
    #[tactic(auto, unfolding(crate::specs::Header::header_from))]
    pub fn try_new(
        width: u32,
        height: u32,
        channels: Channels,
        colorspace: ColorSpace,
    ) -> Result<Self, Error>
        ensures { result ≡ header_from width height channels colorspace }
    {
        let header = Header {
            width,
            height,
            channels,
            colorspace,
        };
        if !header.dimensions_fit() {
            return Err(Error::InvalidImageDimensions { width, height });
        }
        Ok(header)
    }

    // Whether there are 1 to 400,000,000 pixels.
    pub fn dimensions_fit(self) -> bool
        ensures { result ≡ dimensions_fit_of self.width self.height }
    {
        (1..=QOI_PIXELS_MAX).contains(&self.n_pixels())
    }

    pub fn with_channels(self, channels: Channels) -> Self
        ensures { result ≡ with_channels_of self channels }
    {
        Header { channels, ..self }
    }

    pub fn with_colorspace(self, colorspace: ColorSpace) -> Self
        ensures { result ≡ with_color_space self colorspace }
    {
        Header { colorspace, ..self }
    }

    // The fourteen bytes.
    #[tactic(auto, unfolding(crate::specs::Header::header_bytes))]
    pub fn encode(self) -> [u8; QOI_HEADER_SIZE]
        ensures { result ≡ header_bytes self }
    {
        let [m0, m1, m2, m3] = QOI_MAGIC.to_be_bytes();
        let [w0, w1, w2, w3] = self.width.to_be_bytes();
        let [h0, h1, h2, h3] = self.height.to_be_bytes();
        let channels = self.channels.as_u8();
        let colorspace = self.colorspace.as_u8();
        [
            m0, m1, m2, m3, w0, w1, w2, w3, h0, h1, h2, h3, channels, colorspace,
        ]
    }

    // The header that a message starts with.
    #[tactic(auto, unfolding(crate::specs::Header::header_of, crate::specs::Header::after_channels, crate::specs::Header::after_color_space))]
    pub fn decode(message: &[u8]) -> Result<Self, Error>
        ensures { result ≡ header_of message.now }
    {
        if message.len() < QOI_HEADER_SIZE {
            return Err(Error::UnexpectedBufferEnd { at: 0 });
        }
        let channels = Channels::try_from(u64::from(message[12]))?;
        let colorspace = ColorSpace::try_from(u64::from(message[13]))?;
        let magic = number_at(message, 0);
        if magic != QOI_MAGIC {
            return Err(Error::InvalidMagic { magic });
        }
        Header::try_new(
            number_at(message, 4),
            number_at(message, 8),
            channels,
            colorspace,
        )
    }

    pub fn n_pixels(self) -> usize
        ensures { result ≡ pixel_count self }
    {
        product(self.width, self.height)
    }

    // The bytes of the raw pixels, saturating.
    pub fn n_bytes(self) -> usize
        ensures { result ≡ pixel_bytes self }
    {
        saturating_mul(self.n_pixels(), self.channels.as_u8() as usize)
    }

    // The most that the encoded picture takes, saturating.
    pub fn encode_max_len(self) -> usize
        ensures { result ≡ encoded_room self.width self.height (channels_number self.channels) }
    {
        encode_max_len(self.width, self.height, self.channels.as_u8())
    }
}

// The 32-bit big-endian number at a place.
fn number_at(message: &[u8], at: usize) -> u32
    requires { at + 4 ≤ length message.now }
    ensures { result ≡ number_at_of message.now at }
{
    u32::from_be_bytes([
        message[at],
        message[at + 1],
        message[at + 2],
        message[at + 3],
    ])
}

// The header that a message starts with.
pub fn decode_header(message: &[u8]) -> Result<Header, Error>
    ensures { result ≡ header_of message.now }
{
    Header::decode(message)
}

// The most that a picture of these figures takes when encoded, saturating; it refuses nothing.
pub fn encode_max_len(width: u32, height: u32, channels: u8) -> usize
    ensures { result ≡ encoded_room width height channels }
{
    saturating_mul(product(width, height), channels as usize + 1).saturating_add(
        QOI_HEADER_SIZE + QOI_PADDING_SIZE,
    )
}

// Width times height, which always fits.
#[tactic(auto, using(crate::proofs::Laws::product_fits))]
fn product(width: u32, height: u32) -> usize
    ensures { result ≡ width * height }
{
    (width as usize) * (height as usize)
}

// A product that stops at 2^64-1.
pub fn saturating_mul(a: usize, b: usize) -> usize
    ensures { result ≡ saturated (a * b) }
{
    a.saturating_mul(b)
}

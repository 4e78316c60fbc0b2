// Channel counts and colour spaces, and the numbers that stand for them in a header.
ghost use Rattle.std.specs.Prelude.{◌≡◌, not};
ghost use Rattle.pixel.specs.declared.types.Channels.TheVariants.{Rgb};
ghost use Rattle.pixel.specs.declared.types.ColorSpace.TheVariants.{Srgb};
ghost use Rattle.pixel.specs.Types.{channels_number, color_space_number, channels_from, color_space_from, is_rgb as is_rgb_of, is_srgb as is_srgb_of};

use crate::error::Error;

#[derive(Clone, Copy, Debug, PartialEq, Eq, Hash, PartialOrd, Ord)]
pub enum Channels {
    Rgb = 3,
    Rgba = 4,
}

#[derive(Clone, Copy, Debug, PartialEq, Eq, Hash, PartialOrd, Ord)]
pub enum ColorSpace {
    // sRGB with linear alpha.
    Srgb = 0,
    // All channels linear.
    Linear = 1,
}

impl Default for Channels {
    ghost is_default = { λ channels. channels ≡ Rgb };

    fn default() -> Self {
        Channels::Rgb
    }
}

impl TryFrom<u64> for Channels {
    type Error = Error;

    ghost try_from_gives = { λ number read. read ≡ channels_from number };

    // 3 and 4 alone are channel counts; the refusal carries at most 255.
    fn try_from(channels: u64) -> Result<Self, Error> {
        match channels {
            3 => Ok(Channels::Rgb),
            4 => Ok(Channels::Rgba),
            _ => Err(Error::InvalidChannels {
                channels: channels.min(255) as u8,
            }),
        }
    }
}

impl From<Channels> for u8 {
    ghost from_gives = { λ channels number. number ≡ channels_number channels };

    fn from(channels: Channels) -> u8 {
        channels.as_u8()
    }
}

impl Channels {
    pub fn is_rgb(self) -> bool
        ensures { result ≡ is_rgb_of self }
    {
        matches!(self, Channels::Rgb)
    }

    pub fn is_rgba(self) -> bool
        ensures { result ≡ not (is_rgb_of self) }
    {
        matches!(self, Channels::Rgba)
    }

    // 3 or 4.
    pub fn as_u8(self) -> u8
        ensures { result ≡ channels_number self }
    {
        self as u8
    }
}

impl Default for ColorSpace {
    ghost is_default = { λ space. space ≡ Srgb };

    fn default() -> Self {
        ColorSpace::Srgb
    }
}

impl TryFrom<u64> for ColorSpace {
    type Error = Error;

    ghost try_from_gives = { λ number read. read ≡ color_space_from number };

    // 0 and 1 alone are colour spaces; the refusal carries at most 255.
    fn try_from(colorspace: u64) -> Result<Self, Error> {
        match colorspace {
            0 => Ok(ColorSpace::Srgb),
            1 => Ok(ColorSpace::Linear),
            _ => Err(Error::InvalidColorSpace {
                colorspace: colorspace.min(255) as u8,
            }),
        }
    }
}

impl From<ColorSpace> for u8 {
    ghost from_gives = { λ space number. number ≡ color_space_number space };

    fn from(space: ColorSpace) -> u8 {
        space.as_u8()
    }
}

impl ColorSpace {
    pub fn is_srgb(self) -> bool
        ensures { result ≡ is_srgb_of self }
    {
        matches!(self, ColorSpace::Srgb)
    }

    pub fn is_linear(self) -> bool
        ensures { result ≡ not (is_srgb_of self) }
    {
        matches!(self, ColorSpace::Linear)
    }

    // 0 or 1.
    pub fn as_u8(self) -> u8
        ensures { result ≡ color_space_number self }
    {
        self as u8
    }
}

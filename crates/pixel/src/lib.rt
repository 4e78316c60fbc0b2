// Pixels, channel counts, colour spaces and refusals: what every layer above speaks of.
#![tactic(auto)]

ghost use Rattle.std.specs.Prelude.{◌≡◌, ◌+◌, ◌*◌, ◌%◌};
ghost use Rattle.pixel.specs.Colour.{pixel_of, red, green, blue, alpha, start_pixel, clear_pixel, with_alpha, slot_of, wrapped_sum as wrapped_sum_of, wrapped_difference as wrapped_difference_of, signed_of};

pub mod consts;
pub mod error;
pub mod packed;
pub mod types;
mod words;

// Red, green, blue, alpha. Where pixels have three channels the alpha is 255.
#[derive(Clone, Copy, Debug, PartialEq, Eq, Hash)]
pub struct Pixel {
    pub rgba: [u8; 4],
}

impl Pixel {
    pub fn new(r: u8, g: u8, b: u8, a: u8) -> Self
        ensures { result ≡ pixel_of r g b a }
    {
        Pixel { rgba: [r, g, b, a] }
    }

    // The pixel before the first: black, opaque.
    pub fn start() -> Self
        ensures { result ≡ start_pixel }
    {
        Pixel {
            rgba: [0, 0, 0, 255],
        }
    }

    // What every slot holds at first.
    pub fn clear() -> Self
        ensures { result ≡ clear_pixel }
    {
        Pixel { rgba: [0, 0, 0, 0] }
    }

    pub fn r(self) -> u8
        ensures { result ≡ red self }
    {
        self.rgba[0]
    }

    pub fn g(self) -> u8
        ensures { result ≡ green self }
    {
        self.rgba[1]
    }

    pub fn b(self) -> u8
        ensures { result ≡ blue self }
    {
        self.rgba[2]
    }

    pub fn a(self) -> u8
        ensures { result ≡ alpha self }
    {
        self.rgba[3]
    }

    pub fn with_a(self, a: u8) -> Self
        ensures { result ≡ with_alpha self a }
    {
        let [r, g, b, _] = self.rgba;
        Pixel::new(r, g, b, a)
    }

    // The slot of the colour, with this pixel's own alpha.
    #[tactic(auto, unfolding(crate::specs::Colour::slot_of))]
    pub fn hash_index(self) -> u8
        ensures { result ≡ slot_of self }
    {
        let [r, g, b, a] = self.rgba.map(u32::from);
        ((3 * r + 5 * g + 7 * b + 11 * a) % 64) as u8
    }
}

// The sum of two channels modulo 256.
pub fn wrapped_sum(a: u8, b: u8) -> u8
    ensures { result ≡ wrapped_sum_of a b }
{
    a.wrapping_add(b)
}

// The difference of two channels modulo 256.
pub fn wrapped_difference(a: u8, b: u8) -> u8
    ensures { result ≡ wrapped_difference_of a b }
{
    a.wrapping_sub(b)
}

// A wrapped difference as a number from -128 to 127.
pub fn signed(x: u8) -> i8
    ensures { result ≡ signed_of x }
{
    x.cast_signed()
}

// A pixel in two lanes: red and blue in one number, 16 bits apart, green and alpha in another. One sum adds to both
// channels of a number at once.
ghost use Rattle.std.specs.Prelude.{◌≡◌, ◌+◌, ◌*◌, ◌/◌, ◌%◌, ◌<◌};

#[derive(Clone, Copy)]
pub struct Lanes {
    even: u32,
    odd: u32,
    // Each channel is a byte.
    ghost red: { even % 65536 < 256 },
    ghost green: { odd % 65536 < 256 },
    ghost blue: { even / 65536 < 256 },
    ghost alpha: { odd / 65536 < 256 },
}

impl Lanes {
    ghost use Rattle.std.specs.Prelude.{[]};
    ghost use Rattle.pixel.specs.Colour.{alpha as alpha_of, pixel_of, slot_of};
    ghost use Rattle.pixel.specs.Packed.{unpacked};
    ghost use Rattle.rules.specs.Chunk.{colour_of, DIFF, LUMA};
    ghost use Rattle.walk.specs.Lanes.{pixel_in};

    // The lanes of a packed pixel.
    pub fn of_packed(p: u32) -> Lanes
        ensures { pixel_in result ≡ unpacked p }
    {
        Lanes {
            even: wrapped(p),
            odd: wrapped(p / 256),
        }
    }

    // The lanes of four channels.
    pub fn of_bytes(r: u8, g: u8, b: u8, a: u8) -> Lanes
        ensures { pixel_in result ≡ pixel_of r g b a }
    {
        Lanes {
            even: u32::from(r) + u32::from(b) * 0x1_0000,
            odd: u32::from(g) + u32::from(a) * 0x1_0000,
        }
    }

    // After DIFF: each colour plus its two bits less 2.
    pub fn after_diff(self, byte: u8) -> Lanes
        ensures { pixel_in result ≡ colour_of [] (pixel_in self) (DIFF (byte / 16 % 4) (byte / 4 % 4) (byte % 4)) }
    {
        let bits = u32::from(byte);
        Lanes {
            even: wrapped(self.even + (bits / 16 % 4 + bits % 4 * 0x1_0000 + 0xfe_00fe)),
            odd: wrapped(self.odd + (bits / 4 % 4 + 0xfe)),
        }
    }

    // After LUMA: green plus its six bits less 32, red and blue plus green's difference and their four bits less 8.
    pub fn after_luma(self, byte: u8, second: u8) -> Lanes
        ensures { pixel_in result ≡ colour_of [] (pixel_in self) (LUMA (byte % 64) (second / 16) (second % 16)) }
    {
        let near = u32::from(byte) % 64;
        let others = u32::from(second);
        Lanes {
            even: wrapped(
                self.even + (near * 0x1_0001 + others / 16 + others % 16 * 0x1_0000 + 0xd8_00d8),
            ),
            odd: wrapped(self.odd + (near + 0xe0)),
        }
    }

    // The pixel's alpha.
    #[tactic(auto, unfolding(crate::specs::Lanes::pixel_in))]
    pub fn alpha(self) -> u8
        ensures { result ≡ alpha_of (pixel_in self) }
    {
        (self.odd / 0x1_0000) as u8
    }

    // The packed pixel.
    pub fn join(self) -> u32
        ensures { unpacked result ≡ pixel_in self }
    {
        self.even + self.odd * 256
    }

    // The pixel's slot: two products, each of two channels.
    pub fn slot(self) -> usize
        ensures { result ≡ slot_of (pixel_in self) }
    {
        ((u64::from(self.even) * 0x3_0007 + u64::from(self.odd) * 0x5_000b) / 0x1_0000
            % 64) as usize
    }
}

// Both channels of a number modulo 256.
fn wrapped(x: u32) -> u32
    ensures { result ≡ x % 256 + x / 65536 % 256 * 65536 }
{
    x % 256 + x / 0x1_0000 % 256 * 0x1_0000
}

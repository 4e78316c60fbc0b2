// A pixel packed in 32 bits, red lowest: what the hot loops hold.
ghost use Rattle.std.specs.Prelude.{◌≡◌, ◌/◌, ◌%◌};
ghost use Rattle.pixel.specs.Colour.{pixel_of, slot_of, with_alpha};
ghost use Rattle.pixel.specs.Packed.{unpacked};

use crate::Pixel;

#[tactic(auto, using(std::proofs::lemmas::Nat::le_bytes_4), unfolding(crate::specs::Packed::unpacked))]
pub fn pack(r: u8, g: u8, b: u8, a: u8) -> u32
    ensures { unpacked result ≡ pixel_of r g b a }
{
    u32::from_le_bytes([r, g, b, a])
}

// The pixel as one number.
#[tactic(auto, using(std::proofs::lemmas::Nat::le_bytes_4), unfolding(crate::specs::Packed::unpacked))]
pub fn of_pixel(p: Pixel) -> u32
    ensures { unpacked result ≡ p }
{
    u32::from_le_bytes(p.rgba)
}

// The pixel that a number packs.
#[tactic(auto, unfolding(crate::specs::Packed::unpacked))]
pub fn unpack(p: u32) -> Pixel
    ensures { result ≡ unpacked p }
{
    Pixel {
        rgba: p.to_le_bytes(),
    }
}

pub fn red(p: u32) -> u8
    ensures { result ≡ p % 256 }
{
    p.to_le_bytes()[0]
}

pub fn green(p: u32) -> u8
    ensures { result ≡ p / 256 % 256 }
{
    p.to_le_bytes()[1]
}

pub fn blue(p: u32) -> u8
    ensures { result ≡ p / 65536 % 256 }
{
    p.to_le_bytes()[2]
}

pub fn alpha(p: u32) -> u8
    ensures { result ≡ p / 16777216 % 256 }
{
    p.to_le_bytes()[3]
}

// The same colour with alpha 255.
#[tactic(auto, unfolding(crate::specs::Packed::unpacked))]
pub fn opaque(p: u32) -> u32
    ensures { unpacked result ≡ with_alpha (unpacked p) 255 }
{
    let [r, g, b, _] = p.to_le_bytes();
    pack(r, g, b, 255)
}

// The slot of the colour: two products, each of two channels at once, in the upper half of 64 bits.
#[tactic(auto, using(crate::proofs::PackedLaws::two_products), unfolding(crate::specs::Colour::slot_of, crate::specs::Packed::unpacked))]
pub fn slot(p: u32) -> usize
    ensures { result ≡ slot_of (unpacked p) }
{
    let even = u64::from(red(p)) + u64::from(blue(p)) * 0x1_0000;
    let odd = u64::from(green(p)) + u64::from(alpha(p)) * 0x1_0000;
    ((even * 0x3_0007_0000 + odd * 0x5_000b_0000) / 0x1_0000_0000 % 64) as usize
}

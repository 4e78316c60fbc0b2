// The slots, packed: what the quick loops hold. A loop over both arrays compiles to moves of whole registers, and the
// library's `map` of an array, which hands over one element after another, does not.
ghost use Rattle.std.specs.Prelude.{◌≡◌, map};
ghost use Rattle.pixel.specs.Packed.{unpacked};

use pixel::{Pixel, packed};

// The slots, each packed.
pub fn hold(slots: [Pixel; 64]) -> [u32; 64]
    ensures { map unpacked result ≡ slots }
{
    let mut held: [u32; 64] = [0; 64];
    for i in 0..64 {
        held[i] = packed::of_pixel(slots[i]);
    }
    held
}

// The slots, each unpacked.
pub fn release(held: [u32; 64]) -> [Pixel; 64]
    ensures { result ≡ map unpacked held }
{
    let mut slots = [Pixel::clear(); 64];
    for i in 0..64 {
        slots[i] = packed::unpack(held[i]);
    }
    slots
}

// Where a walk's loops stand between two chunks.
ghost use Rattle.std.specs.Prelude.{List, map, ◌≡◌, ℕ, ◌+◌, ◌≤◌};
ghost use Rattle.pixel.specs.Packed.{unpacked};
ghost use Rattle.walk.specs.Walking.{place_of, walk_of};
ghost use Rattle.walk.specs.Asked.{place_in, reached_in};

use crate::lanes::Lanes;
use crate::{Place, Walked, slots};
use pixel::packed;

#[derive(Clone, Copy)]
pub struct Spot {
    // Byte position in the message.
    pub at: usize,
    // Pixels since the walk began.
    pub done: usize,
    // Chunks that are still allowed.
    pub spare: usize,
    pub lanes: Lanes,
}

impl Spot {
    // The place of the spot in a walk that began at pixel `from`.
    fn place(self, from: usize, held: [u32; 64]) -> Place
        requires { from + self.done ≤ 400000000 }
        ensures { place_of result ≡ place_in from self (map unpacked held) }
    {
        Place {
            at: self.at,
            pixel: from + self.done,
            current: packed::unpack(self.lanes.join()),
            slots: slots::release(held),
        }
    }
}

// Where a walk came to, and whether the next chunk is cut short.
#[derive(Clone, Copy)]
pub struct Reached {
    pub cut: bool,
    pub spot: Spot,
}

impl Reached {
    // The answer of a walk that began at pixel `from`.
    pub fn walked(self, from: usize, held: [u32; 64]) -> Walked
        requires { from + self.spot.done ≤ 400000000 }
        ensures { (out : List ℕ) → walk_of result out ≡ reached_in from self (map unpacked held) out }
    {
        Walked {
            cut: self.cut,
            spare: self.spot.spare,
            place: self.spot.place(from, held),
        }
    }
}

// Quick rounds, one after another while they get on.
ghost use Rattle.std.specs.Prelude.{map, ◌≡◌, T};
ghost use Rattle.pixel.specs.Packed.{unpacked};
ghost use Rattle.rules.specs.Decode.{decoder_keeps};
ghost use Rattle.walk.specs.Asked.{Stands, Onward, Begins, Comes};

use crate::lanes::Lanes;
use crate::layout::Layout;
use crate::quick::quick;
use crate::spot::Spot;
use pixel::types::Channels;

// From a byte position and a packed pixel, as far as every chunk is sure to be whole: to the last pixel or step, if the
// message has its marker and no ff is stuck. It takes numbers, which are handed over in registers, and no spot.
pub fn rounds<L: Layout>(
    message: &[u8],
    source: Channels,
    missing: usize,
    at: usize,
    spare: usize,
    current: u32,
    held: &mut [u32; 64],
    out: &mut [u8],
) -> Spot
    requires { Begins L.CHANNELS message.now missing at spare current out.old }
    ensures { Comes L.CHANNELS message.now source missing
        at spare current (map unpacked held.old) out.old
        result (map unpacked held.new) out.new }
{
    let mut spot = Spot {
        at,
        done: 0,
        spare,
        lanes: Lanes::of_packed(current),
    };
    let mut before = spare + 1;
    while spot.spare < before && spot.done < missing {
        before = spot.spare;
        spot = quick::<L>(message, source, missing, spot, held, out);
    }
    spot
}

// Whether a packed pixel is one that a chunk may leave: with three channels wanted its alpha is 255, but a made-up
// place may have another. A false answer only costs time.
pub fn may_follow<L: Layout>(p: u32) -> bool
    ensures { T result → decoder_keeps L.CHANNELS (unpacked p) ≡ unpacked p }
{
    L::keep(p) == p
}

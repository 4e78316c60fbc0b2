// The chunks of a decode as far as each is sure to be whole.
ghost use Rattle.std.specs.Prelude.{◌≡◌, map, ◌+◌, ◌*◌, ◌≤◌, length, set};
ghost use Rattle.pixel.specs.Colour.{slot_of};
ghost use Rattle.pixel.specs.Packed.{unpacked};
ghost use Rattle.rules.specs.Bytes.{pasted};
ghost use Rattle.walk.specs.Lanes.{pixel_in};
ghost use Rattle.walk.specs.Asked.{Stands, Onward, bytes_in};

use crate::lanes::Lanes;
use crate::layout::{self, Layout};
use crate::spot::Spot;
use pixel::types::Channels;

// A round: n chunks, where n steps, n pixels and 5n bytes are left. It ends early before an ff that is stuck, and where
// runs left fewer pixels.
pub fn quick<L: Layout>(
    message: &[u8],
    source: Channels,
    missing: usize,
    spot: Spot,
    held: &mut [u32; 64],
    out: &mut [u8],
) -> Spot
    requires { Stands L.CHANNELS message.now missing spot out.old }
    ensures { Onward L.CHANNELS message.now source missing
        spot (map unpacked held.old) out.old
        result (map unpacked held.new) out.new }
{
    let mut at = spot.at;
    let mut done = spot.done;
    let mut l = spot.lanes;
    let mut quota = spot.spare.min(missing - done).min((message.len() - at) / 5);
    let base = spot.spare - quota;
    while 0 < quota {
        let byte = message[at];
        if byte < 64 {
            let kept = L::keep(held[byte as usize]);
            l = Lanes::of_packed(kept);
            L::put(out, done * L::CHANNELS, kept);
            at += 1;
            done += 1;
            quota -= 1;
        } else if 192 <= byte {
            if byte == 254 {
                l = L::lanes(message[at + 1], message[at + 2], message[at + 3], l.alpha());
                store::<L>(held, out, done, l);
                // In another order than in the other arms: so LLVM lets fewer of them share an end to jump to.
                quota -= 1;
                done += 1;
                at += 4;
            } else if byte == 255 {
                match source {
                    Channels::Rgb => {
                        break;
                    }
                    Channels::Rgba => {
                        l = L::lanes(
                            message[at + 1],
                            message[at + 2],
                            message[at + 3],
                            message[at + 4],
                        );
                        store::<L>(held, out, done, l);
                        at += 5;
                        done += 1;
                        quota -= 1;
                    }
                }
            } else {
                let n = (byte as usize - 191).min(missing - done);
                layout::fill::<L>(out, done * L::CHANNELS, n, l.join());
                at += 1;
                done += n;
                quota -= 1;
                if missing - done < quota {
                    break;
                }
            }
        } else if byte < 128 {
            l = l.after_diff(byte);
            store::<L>(held, out, done, l);
            at += 1;
            done += 1;
            quota -= 1;
        } else {
            l = l.after_luma(byte, message[at + 1]);
            store::<L>(held, out, done, l);
            at += 2;
            done += 1;
            quota -= 1;
        }
    }
    Spot {
        at,
        done,
        spare: base + quota,
        lanes: l,
    }
}

// Stores a pixel in its slot, and writes it.
fn store<L: Layout>(held: &mut [u32; 64], out: &mut [u8], done: usize, l: Lanes)
    requires { done * L.CHANNELS + L.CHANNELS ≤ length out.old }
    ensures { (map unpacked held.new
        ≡ set (map unpacked held.old) (slot_of (pixel_in l)) (pixel_in l))
        × (out.new ≡ pasted (done * L.CHANNELS) (bytes_in L.CHANNELS (pixel_in l)) out.old) }
{
    let p = l.join();
    held[l.slot()] = p;
    L::put(out, done * L::CHANNELS, p);
}

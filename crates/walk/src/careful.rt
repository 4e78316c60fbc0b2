// The chunks of a decode one by one, each tested for its length: what the quick loops leave.
ghost use Rattle.std.specs.Prelude.{map};
ghost use Rattle.pixel.specs.Packed.{unpacked};
ghost use Rattle.walk.specs.Asked.{Lies, Ends};

use crate::lanes::Lanes;
use crate::layout::{self, Layout};
use crate::spot::{Reached, Spot};
use chunk::Found;
use pixel::packed;
use pixel::types::Channels;

// The chunks that are left from a spot. `limit` is where `done` would be if each chunk left brought one pixel, so that
// only a run has to count.
pub fn careful<L: Layout>(
    message: &[u8],
    source: Channels,
    missing: usize,
    spot: Spot,
    held: &mut [u32; 64],
    out: &mut [u8],
) -> Reached
    requires { Lies L.CHANNELS message.now missing spot out.old }
    ensures { Ends L.CHANNELS message.now source missing
        spot (map unpacked held.old) out.old
        result (map unpacked held.new) out.new }
{
    let mut current = spot.lanes.join();
    let mut at = spot.at;
    let mut done = spot.done;
    let mut limit = done + spot.spare;
    let mut bound = limit.min(missing);
    while done < bound {
        let Some(found) = chunk::read(source, &message[at..]) else {
            return Reached {
                cut: true,
                spot: Spot {
                    at,
                    done,
                    spare: limit - done,
                    lanes: Lanes::of_packed(current),
                },
            };
        };
        match found {
            Found::Index(slot) => {
                current = L::keep(held[slot as usize]);
                L::put(out, done * L::CHANNELS, current);
                at += 1;
                done += 1;
            }
            Found::Run(times) => {
                let n = (times as usize).min(missing - done);
                current = L::keep(current);
                layout::fill::<L>(out, done * L::CHANNELS, n, current);
                at += 1;
                done += n;
                limit += n - 1;
                bound = limit.min(missing);
            }
            Found::Colour(colour) => {
                at += chunk::size(colour);
                let alpha = chunk::alpha(packed::alpha(current), colour);
                current = L::keep(chunk::recolour(current, alpha, colour));
                let i = packed::slot(current);
                held[i] = current;
                L::put(out, done * L::CHANNELS, current);
                done += 1;
            }
        }
    }
    Reached {
        cut: false,
        spot: Spot {
            at,
            done,
            spare: limit - done,
            lanes: Lanes::of_packed(current),
        },
    }
}

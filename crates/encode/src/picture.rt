// The chunks of a picture, one after another. The channel number is a constant: each number has a loop of its own.
ghost use Rattle.std.specs.Prelude.{◌≡◌, ◌+◌, ◌≤◌, length, map};
ghost use Rattle.pixel.specs.Bytes.{pixel_from};
ghost use Rattle.pixel.specs.Packed.{unpacked};
ghost use Rattle.rules.specs.Bytes.{Puts};
ghost use Rattle.encode.specs.Asked.{pixels_bytes};

use crate::run::end_run;
use crate::{colour, put};
use pixel::consts::QOI_OP_RUN;
use pixel::packed;

// Writes the chunks of the pixels at a place, and answers where they end.
pub fn write<const CHANNELS: usize>(
    pixels: &[[u8; CHANNELS]],
    out: &mut [u8],
    start: usize,
) -> usize
    requires { (3 ≤ CHANNELS)
        × (start + length (pixels_bytes (map (pixel_from CHANNELS) pixels.now)) ≤ length out.old) }
    ensures { Puts start (pixels_bytes (map (pixel_from CHANNELS) pixels.now)) out.old result out.new }
{
    let mut slots: [u32; 64] = [0; 64];
    let mut previous: u32 = 0xff00_0000;
    let mut run: usize = 0;
    let mut single = QOI_OP_RUN;
    let mut at = start;
    for pixel in pixels {
        let p = packed_of(pixel);
        if p == previous {
            run += 1;
            if run == 62 {
                at = end_run(out, at, run, QOI_OP_RUN);
                run = 0;
            }
        } else {
            at = end_run(out, at, run, single);
            run = 0;
            let slot = packed::slot(p);
            single = slot as u8;
            if slots[slot] == p {
                at = put::bytes(out, at, [single]);
            } else {
                slots[slot] = p;
                at = colour::write(out, at, previous, p);
            }
            previous = p;
        }
    }
    end_run(out, at, run, QOI_OP_RUN)
}

// A pixel's bytes as one number.
fn packed_of<const CHANNELS: usize>(bytes: &[u8; CHANNELS]) -> u32
    requires { 3 ≤ CHANNELS }
    ensures { unpacked result ≡ pixel_from CHANNELS bytes.now }
{
    let alpha = if CHANNELS == 3 { 255 } else { bytes[3] };
    packed::pack(bytes[0], bytes[1], bytes[2], alpha)
}

// How the pixels that a decode wants lie in its output: three bytes each, or four.
ghost use Rattle.std.specs.Prelude.{◌≡◌, ℕ, ◌+◌, ◌*◌, ◌<◌, ◌≤◌, length};
ghost use Rattle.pixel.specs.Colour.{pixel_of};
ghost use Rattle.pixel.specs.Packed.{unpacked};
ghost use Rattle.rules.specs.Bytes.{repeated, pasted};
ghost use Rattle.rules.specs.Decode.{decoder_keeps};
ghost use Rattle.walk.specs.Lanes.{pixel_in};
ghost use Rattle.walk.specs.Asked.{bytes_in};

use crate::lanes::Lanes;

pub trait Layout {
    // How many channels are wanted, which is how many bytes a pixel has.
    ghost CHANNELS: { ℕ };

    const CHANNELS: usize;

    // What is kept of a packed pixel: where alpha is not wanted, it is 255.
    fn keep(p: u32) -> u32
        ensures { unpacked result ≡ decoder_keeps CHANNELS (unpacked p) };

    // The lanes of what is kept of four channels.
    fn lanes(r: u8, g: u8, b: u8, a: u8) -> Lanes
        ensures { pixel_in result ≡ decoder_keeps CHANNELS (pixel_of r g b a) };

    // Writes a pixel's bytes at a place.
    fn put(out: &mut [u8], at: usize, p: u32)
        requires { at + CHANNELS ≤ length out.old }
        ensures { out.new ≡ pasted at (bytes_in CHANNELS (unpacked p)) out.old };

    // Writes a pixel's bytes four times or more.
    fn put_many(out: &mut [u8], at: usize, times: usize, p: u32)
        requires { (4 ≤ times) × (at + times * CHANNELS ≤ length out.old) }
        ensures { out.new ≡ pasted at (repeated times (bytes_in CHANNELS (unpacked p))) out.old };

    ghost at_most_four: { CHANNELS ≤ 4 };
}

// Writes a pixel's bytes `times` times, by wide stores: nothing past the run is written, and no loop of single pixels is
// left over.
pub fn fill<L: Layout>(out: &mut [u8], at: usize, times: usize, p: u32)
    requires { (1 ≤ times) × (at + times * L.CHANNELS ≤ length out.old) }
    ensures { out.new ≡ pasted at (repeated times (bytes_in L.CHANNELS (unpacked p))) out.old }
{
    if times < 4 {
        put_few::<L>(out, at, times, p);
    } else {
        L::put_many(out, at, times, p);
    }
}

// Writes a pixel's bytes one to three times: the first, the second or the first again, and the last.
fn put_few<L: Layout>(out: &mut [u8], at: usize, times: usize, p: u32)
    requires { (1 ≤ times) × (times < 4) × (at + times * L.CHANNELS ≤ length out.old) }
    ensures { out.new ≡ pasted at (repeated times (bytes_in L.CHANNELS (unpacked p))) out.old }
{
    let last = at + (times - 1) * L::CHANNELS;
    L::put(out, at, p);
    L::put(out, last.min(at + L::CHANNELS), p);
    L::put(out, last, p);
}

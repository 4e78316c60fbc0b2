// Three bytes for a pixel: alpha is not wanted.
ghost use Rattle.std.specs.Prelude.{◌≡◌, ◌++◌, ◌+◌, ◌≤◌, length};
ghost use Rattle.std.proofs.Common.{rules};
ghost use Rattle.pixel.specs.Packed.{unpacked};
ghost use Rattle.rules.specs.Bytes.{pasted};
ghost use Rattle.walk.specs.Asked.{bytes_in};

use crate::four::Four;
use crate::lanes::Lanes;
use crate::layout::Layout;
use pixel::packed;

pub struct Three;

impl Layout for Three {
    ghost CHANNELS = { 3 };

    ghost at_most_four = { Prim.search rules };

    const CHANNELS: usize = 3;

    #[tactic(auto, unfolding(rules::specs::Decode::decoder_keeps))]
    fn keep(p: u32) -> u32 {
        packed::opaque(p)
    }

    #[tactic(auto, unfolding(rules::specs::Decode::decoder_keeps))]
    fn lanes(r: u8, g: u8, b: u8, _: u8) -> Lanes {
        Lanes::of_bytes(r, g, b, 255)
    }

    fn put(out: &mut [u8], at: usize, p: u32) {
        out[at] = packed::red(p);
        out[at + 1] = packed::green(p);
        out[at + 2] = packed::blue(p);
    }

    // Four pixels are three words.
    fn put_many(out: &mut [u8], at: usize, times: usize, p: u32) {
        let r = packed::red(p);
        let g = packed::green(p);
        let b = packed::blue(p);
        let x = packed::pack(r, g, b, r);
        let y = packed::pack(g, b, r, g);
        let z = packed::pack(b, r, g, b);
        let last = at + (times - 4) * 3;
        let mut i = at;
        while i < last {
            words(out, i, x, y, z);
            i += 12;
        }
        words(out, last, x, y, z);
    }
}

// Three words one after another.
fn words(out: &mut [u8], at: usize, x: u32, y: u32, z: u32)
    requires { at + 12 ≤ length out.old }
    ensures { out.new
        ≡ pasted at (bytes_in 4 (unpacked x) ++ (bytes_in 4 (unpacked y) ++ bytes_in 4 (unpacked z))) out.old }
{
    Four::put(out, at, x);
    Four::put(out, at + 4, y);
    Four::put(out, at + 8, z);
}

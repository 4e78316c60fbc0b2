// Four bytes for a pixel.
ghost use Rattle.std.specs.Prelude.{◌≡◌, ◌+◌, ◌*◌, ◌<◌, ◌≤◌, length};
ghost use Rattle.std.proofs.Common.{rules};
ghost use Rattle.pixel.specs.Packed.{unpacked};
ghost use Rattle.rules.specs.Bytes.{repeated, pasted};
ghost use Rattle.walk.specs.Asked.{bytes_in, Fills, FillsOnce};

use crate::lanes::Lanes;
use crate::layout::Layout;
use pixel::packed;

pub struct Four;

impl Layout for Four {
    ghost CHANNELS = { 4 };

    ghost at_most_four = { Prim.search rules };

    const CHANNELS: usize = 4;

    #[tactic(auto, unfolding(rules::specs::Decode::decoder_keeps))]
    fn keep(p: u32) -> u32 {
        p
    }

    #[tactic(auto, unfolding(rules::specs::Decode::decoder_keeps))]
    fn lanes(r: u8, g: u8, b: u8, a: u8) -> Lanes {
        Lanes::of_bytes(r, g, b, a)
    }

    fn put(out: &mut [u8], at: usize, p: u32) {
        out[at] = packed::red(p);
        out[at + 1] = packed::green(p);
        out[at + 2] = packed::blue(p);
        out[at + 3] = packed::alpha(p);
    }

    fn put_many(out: &mut [u8], at: usize, times: usize, p: u32) {
        if times <= 16 {
            put_some(out, at, times, p);
        } else {
            put_long(out, at, times, p);
        }
    }
}

// Four to sixteen times: four blocks, each after the one before it, or over it where fewer pixels are left.
fn put_some(out: &mut [u8], at: usize, times: usize, p: u32)
    requires { (4 ≤ times) × (times ≤ 16) × (at + times * 4 ≤ length out.old) }
    ensures { out.new ≡ pasted at (repeated times (bytes_in 4 (unpacked p))) out.old }
{
    let last = at + (times - 4) * 4;
    block::<4>(out, at, p);
    block::<4>(out, last.min(at + 16), p);
    block::<4>(out, last.min(at + 32), p);
    block::<4>(out, last, p);
}

// More than sixteen times: up to a multiple of 16, since a store there crosses no cache line where the output starts at
// one; by 64 bytes; and what is left, with no byte written twice: of the shapes at multiples of 16 the fastest on Arm.
fn put_long(out: &mut [u8], at: usize, times: usize, p: u32)
    requires { (16 < times) × (at + times * 4 ≤ length out.old) }
    ensures { out.new ≡ pasted at (repeated times (bytes_in 4 (unpacked p))) out.old }
{
    let end = at + times * 4;
    let eights = once::<1>(out, at, at + at % 8, p);
    let sixteens = once::<2>(out, eights, eights + eights % 16, p);
    let under_64 = pages(out, sixteens, end, p);
    let under_32 = once::<8>(out, under_64, end, p);
    let under_16 = once::<4>(out, under_32, end, p);
    let under_8 = once::<2>(out, under_16, end, p);
    once::<1>(out, under_8, end, p);
}

// Sixteen pixels, as often as they fit before the end; answers where they end.
fn pages(out: &mut [u8], at: usize, end: usize, p: u32) -> usize
    requires { (at ≤ end) × (end ≤ length out.old) }
    ensures { Fills p at end out.old result out.new × (end < result + 64) }
{
    let mut i = at;
    while 64 <= end - i {
        block::<16>(out, i, p);
        i += 64;
    }
    i
}

// N pixels, if they fit before the end; answers where they end.
fn once<const N: usize>(out: &mut [u8], at: usize, end: usize, p: u32) -> usize
    requires { (at ≤ end) × (end ≤ length out.old) }
    ensures { Fills p at end out.old result out.new × FillsOnce (N * 4) at end result }
{
    if (end - at) / 4 < N {
        return at;
    }
    block::<N>(out, at, p);
    at + N * 4
}

// N pixels.
fn block<const N: usize>(out: &mut [u8], at: usize, p: u32)
    requires { at + N * 4 ≤ length out.old }
    ensures { out.new ≡ pasted at (repeated N (bytes_in 4 (unpacked p))) out.old }
{
    for i in 0..N {
        Four::put(out, at + i * 4, p);
    }
}

// The chunk of a colour: RGBA where alpha changed, else the first fitting of DIFF, LUMA, RGB. It is chosen and written
// at once: an enum between the two would slow the loops.
ghost use Rattle.std.specs.Prelude.{◌≡◌, ◌+◌, ◌≤◌, length};
ghost use Rattle.pixel.specs.Colour.{signed_of};
ghost use Rattle.pixel.specs.Packed.{unpacked};
ghost use Rattle.rules.specs.Bytes.{Puts};
ghost use Rattle.rules.specs.Encode.{fits_diff as fits_diff_of, fits_luma as fits_luma_of};
ghost use Rattle.encode.specs.Asked.{colour_bytes, in_range, shifted_bytes};

use crate::put;
use pixel::consts::{QOI_OP_DIFF, QOI_OP_LUMA, QOI_OP_RGB, QOI_OP_RGBA};
use pixel::{packed, signed, wrapped_difference, wrapped_sum};

// Writes the chunk of `p` after `previous` at a place, and answers where it ends. Where pixels have three channels LLVM
// sees that alpha never changes.
pub fn write(out: &mut [u8], at: usize, previous: u32, p: u32) -> usize
    requires { at + length (colour_bytes previous p) ≤ length out.old }
    ensures { Puts at (colour_bytes previous p) out.old result out.new }
{
    let [r, g, b, a] = p.to_le_bytes();
    if a != packed::alpha(previous) {
        return put::bytes(out, at, [QOI_OP_RGBA, r, g, b, a]);
    }
    let red = wrapped_difference(r, packed::red(previous));
    let green = wrapped_difference(g, packed::green(previous));
    let blue = wrapped_difference(b, packed::blue(previous));
    write_shifted(out, at, p, red, green, blue)
}

// The same where alpha is unchanged, by the differences of red, green and blue: the first fitting of DIFF, LUMA, RGB.
fn write_shifted(out: &mut [u8], at: usize, p: u32, r: u8, g: u8, b: u8) -> usize
    requires { at + length (shifted_bytes p r g b) ≤ length out.old }
    ensures { Puts at (shifted_bytes p r g b) out.old result out.new }
{
    if fits_diff(r, g, b) {
        let byte = QOI_OP_DIFF + wrapped_sum(r, 2) * 16 + wrapped_sum(g, 2) * 4 + wrapped_sum(b, 2);
        return put::bytes(out, at, [byte]);
    }
    if fits_luma(r, g, b) {
        let others = wrapped_sum(wrapped_difference(r, g), 8) * 16
            + wrapped_sum(wrapped_difference(b, g), 8);
        // One store each: joined in one store they take longer.
        let first = QOI_OP_LUMA + wrapped_sum(g, 32);
        let next = put::bytes(out, at, [first]);
        return put::bytes(out, next, [others]);
    }
    let [red, green, blue, _] = p.to_le_bytes();
    put::bytes(out, at, [QOI_OP_RGB, red, green, blue])
}

// DIFF holds -2..1 in each colour.
fn fits_diff(r: u8, g: u8, b: u8) -> bool
    ensures { result ≡ fits_diff_of r g b }
{
    holds::<-2, 1>(r) && holds::<-2, 1>(g) && holds::<-2, 1>(b)
}

// LUMA holds green -32..31 and the other two -8..7 against green. Of random pixels green's test holds for one in four,
// the others' for one in sixteen; this order ran fastest.
fn fits_luma(r: u8, g: u8, b: u8) -> bool
    ensures { result ≡ fits_luma_of r g b }
{
    holds::<-8, 7>(wrapped_difference(b, g))
        && holds::<-8, 7>(wrapped_difference(r, g))
        && holds::<-32, 31>(g)
}

// Whether a difference is from the least to the most.
fn holds<const LEAST: i8, const MOST: i8>(difference: u8) -> bool
    ensures { result ≡ in_range LEAST MOST (signed_of difference) }
{
    (LEAST..=MOST).contains(&signed(difference))
}

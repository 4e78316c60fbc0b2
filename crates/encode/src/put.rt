// Bytes written at a place.
ghost use Rattle.std.specs.Prelude.{◌+◌, ◌≤◌, length};
ghost use Rattle.rules.specs.Bytes.{Puts};

// Writes some bytes, and answers where they end.
pub fn bytes<const N: usize>(out: &mut [u8], at: usize, bytes: [u8; N]) -> usize
    requires { at + N ≤ length out.old }
    ensures { Puts at bytes.entry out.old result out.new }
{
    let end = at + N;
    out[at..end].copy_from_slice(&bytes);
    end
}

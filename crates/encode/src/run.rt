// Runs of equal pixels, as they are written.
ghost use Rattle.std.specs.Prelude.{◌≡◌, ◌+◌, ◌≤◌, length};
ghost use Rattle.rules.specs.Bytes.{Puts};
ghost use Rattle.encode.specs.Asked.{ended_bytes, ended_byte};

use crate::put;
use pixel::consts::QOI_OP_RUN;

// Writes a run that ends, if there is one. That of a single pixel has its byte given: INDEX of the pixel's slot, or RUN
// before any pixel differed and where no other pixel ends the run.
pub fn end_run(out: &mut [u8], at: usize, run: usize, single: u8) -> usize
    requires { (run ≤ 62) × (at + length (ended_bytes run single) ≤ length out.old) }
    ensures { Puts at (ended_bytes run single) out.old result out.new }
{
    if run == 0 {
        return at;
    }
    put::bytes(out, at, [run_byte(run, single)])
}

// The byte of a run: for a single pixel the one that is given, else RUN.
fn run_byte(run: usize, single: u8) -> u8
    requires { (1 ≤ run) × (run ≤ 62) }
    ensures { result ≡ ended_byte run single }
{
    if run == 1 {
        single
    } else {
        QOI_OP_RUN + (run - 1) as u8
    }
}

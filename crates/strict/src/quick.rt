// The chunks of the strict check as far as each is sure to be whole, by their first bytes alone.
ghost use Rattle.std.specs.Prelude.{cond, ◌≡◌, ◌-◌, ltb};
ghost use Rattle.header.specs.Header.{pixel_count};
ghost use Rattle.strict.specs.Asked.{Head};

use header::Header;
use pixel::consts::{QOI_OP_RGB, QOI_OP_RGBA, QOI_OP_RUN};
use pixel::types::Channels;

// Where the check stands between two chunks.
#[derive(Clone, Copy)]
pub struct Counted {
    // Byte position in the message.
    pub at: usize,
    // Pixels left.
    pub left: usize,
    // Chunks so far.
    pub chunks: usize,
}

// Rounds, one after another while they get on.
pub fn quick(message: &[u8], header: Header, start: Counted) -> Counted
    requires { Head header message.now (pixel_count header) start.left start.at start.chunks }
    ensures { Head header message.now (pixel_count header) result.left result.at result.chunks }
{
    let mut reached = start;
    let mut before = start.left + 1;
    while reached.left < before {
        before = reached.left;
        reached = round(message, header, reached);
    }
    reached
}

// A round: n chunks, where n pixels and 8n bytes are left. It refuses nothing: it stops before an ff that is stuck and
// before a run that leaves too few pixels, and the loop over every chunk refuses what is to be refused.
// The chunks of one byte share an arm, and each arm has its one constant size: the arms are hard to foretell, and a
// size that is selected makes the next byte's place wait for this byte.
fn round(message: &[u8], header: Header, start: Counted) -> Counted
    requires { Head header message.now (pixel_count header) start.left start.at start.chunks }
    ensures { Head header message.now (pixel_count header) result.left result.at result.chunks }
{
    let source = header.channels;
    let Counted {
        mut at,
        mut left,
        chunks,
    } = start;
    let mut quota = left.min((message.len() - at) / 8);
    let most = chunks + quota;
    while 0 < quota {
        let byte = message[at];
        if byte / 64 == 2 {
            at += 2;
            left -= 1;
            quota -= 1;
        } else if byte == QOI_OP_RGB {
            at += 4;
            left -= 1;
            quota -= 1;
        } else if byte == QOI_OP_RGBA {
            match source {
                Channels::Rgb => break,
                Channels::Rgba => {
                    at += 5;
                    left -= 1;
                    quota -= 1;
                }
            }
        } else {
            let times = times(byte);
            if left - quota + 1 < times {
                break;
            }
            at += 1;
            left -= times;
            quota -= 1;
        }
    }
    Counted {
        at,
        left,
        chunks: most - quota,
    }
}

// How many pixels a chunk of one byte brings: c0 and more is a run.
fn times(byte: u8) -> usize
    ensures { result ≡ cond (ltb byte 192) 1 (byte - 191) }
{
    if byte < QOI_OP_RUN {
        1
    } else {
        byte as usize - 191
    }
}

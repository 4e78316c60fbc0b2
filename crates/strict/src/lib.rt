// The strict check of a message: what a decode accepts, with no run past the image and nothing after the marker; it
// counts chunks and bytes.
#![tactic(auto)]

ghost use Rattle.std.specs.Prelude.{◌≡◌, ◌≤◌, length};
ghost use Rattle.header.specs.Header.{header_of};
ghost use Rattle.rules.specs.Reading.{closing};
ghost use Rattle.rules.specs.Strict.{strict as strictly, strict_closed};
ghost use Rattle.strict.specs.Checked.{verdict_of};

use chunk::Found;
use header::Header;
use pixel::consts::{QOI_HEADER_SIZE, QOI_PADDING_SIZE};
use pixel::error::Error;
use quick::Counted;

mod quick;

// A message that passes: its header, how many chunks it has, and how many bytes in all.
#[derive(Clone, Copy, Debug, PartialEq, Eq, Hash)]
pub struct Accepted {
    pub header: Header,
    pub chunks: usize,
    pub bytes: usize,
}

// Checks a whole message; nothing is written.
pub fn strict(message: &[u8]) -> Result<Accepted, Error>
    ensures { verdict_of result ≡ strictly message.now }
{
    let header = Header::decode(message)?;
    check(message, header)
}

// The chunks and the end of a message with this header: 1, 8 at once for an ff that is stuck, and 10.
fn check(message: &[u8], header: Header) -> Result<Accepted, Error>
    requires { header_of message.now ≡ Ok header }
    ensures { verdict_of result ≡ strictly message.now }
{
    let start = Counted {
        at: QOI_HEADER_SIZE,
        left: header.n_pixels(),
        chunks: 0,
    };
    let Counted {
        mut at,
        mut left,
        mut chunks,
    } = quick::quick(message, header, start);
    while 0 < left {
        let Some(found) = chunk::read(header.channels, &message[at..]) else {
            return Err(Error::UnexpectedBufferEnd { at: 0 });
        };
        match found {
            Found::Index(_) => {
                at += 1;
                left -= 1;
                chunks += 1;
            }
            Found::Run(times) => {
                if left < times as usize {
                    return Err(Error::RunPastImage);
                }
                at += 1;
                left -= times as usize;
                chunks += 1;
            }
            Found::Colour(colour) => {
                let size = chunk::size(colour);
                // An ff that is stuck takes no byte.
                if size == 0 {
                    return Err(Error::InvalidPadding);
                }
                at += size;
                left -= 1;
                chunks += 1;
            }
        }
    }
    close(message, header, chunks, at)
}

// The end: 1 and 8 as a decode, then 11 where something follows the marker.
fn close(message: &[u8], header: Header, chunks: usize, end: usize) -> Result<Accepted, Error>
    requires { end ≤ length message.now }
    ensures { verdict_of result
        ≡ strict_closed header message.now chunks (closing 0 message.now end) }
{
    chunk::read_end(&message[end..])?;
    let bytes = end + QOI_PADDING_SIZE;
    if bytes < message.len() {
        return Err(Error::BytesAfterMarker);
    }
    Ok(Accepted {
        header,
        chunks,
        bytes,
    })
}

// A state to start from, and a start.
ghost use Rattle.std.specs.Prelude.{◌≡◌};
ghost use Rattle.rules.specs.Step.{start_state, starting};
ghost use Rattle.resume.specs.State.{state_of, idle_state, started_of, Answers};

use crate::{Decoder, Started};
use header::Header;
use pixel::Pixel;
use pixel::consts::QOI_HEADER_SIZE;
use pixel::error::Error;
use pixel::types::Channels;

impl Decoder {
    // A state to start from.
    pub fn idle() -> Self
        ensures { state_of result ≡ idle_state }
    {
        fresh(Header::default(), 0, 3)
    }

    // The state before the first chunk of the message with this number.
    pub fn start(self, message: &[u8], number: u64, wanted: u64) -> Started
        ensures { Answers (starting message.now number wanted) self result }
    {
        self.or_started(started(message, number, wanted))
    }

    // The state that a start made, with the old one after a refusal.
    pub(crate) fn or_started(self, started: Result<Decoder, Error>) -> Started
        ensures { Answers (started_of started) self result }
    {
        match started {
            Ok(decoder) => Started {
                answer: Ok(()),
                decoder,
            },
            Err(e) => Started {
                answer: Err(e),
                decoder: self,
            },
        }
    }
}

// The state before the first chunk: every pixel is left.
fn fresh(header: Header, number: u64, wanted: u64) -> Decoder
    ensures { state_of result ≡ start_state header number wanted }
{
    Decoder {
        header,
        wanted,
        at: QOI_HEADER_SIZE,
        pixel: 0,
        left: header.n_pixels(),
        current: Pixel::start(),
        slots: [Pixel::clear(); 64],
        number,
    }
}

// The state before the first chunk of the message with this number: its header's refusals, then 2 for wanted other than
// 3 or 4.
fn started(message: &[u8], number: u64, wanted: u64) -> Result<Decoder, Error>
    ensures { started_of result ≡ starting message.now number wanted }
{
    let header = Header::decode(message)?;
    let channels = Channels::try_from(wanted)?;
    Ok(fresh(header, number, u64::from(channels.as_u8())))
}

// The whole decode of a message into a lent output, and the rest of a message after it.
#![tactic(auto)]

ghost use Rattle.std.specs.Prelude.{◌≡◌, Ok, length};
ghost use Rattle.header.specs.Header.{header_of};
ghost use Rattle.pixel.specs.Types.{channels_number};
ghost use Rattle.rules.specs.Decode.{decoder};
ghost use Rattle.rules.specs.Reading.{reading_into};
ghost use Rattle.decode.specs.Asked.{Reads};
ghost use Rattle.decode.specs.Decoded.{answer_of, Decodes, DecodesToBuf, IsRest};

use header::Header;
use pixel::consts::QOI_PADDING_SIZE;
use pixel::error::Error;
use pixel::types::Channels;
use walk::Ended;

// Bytes written, and message bytes used: header, chunks and marker.
#[derive(Clone, Copy, Debug, PartialEq, Eq, Hash)]
pub struct Decoded {
    pub size: usize,
    pub used: usize,
}

// Decodes a message to 3 or 4 wanted channels. Of a longer output only the first bytes are used.
pub fn decode(message: &[u8], wanted: u64, out: &mut [u8]) -> Result<Decoded, Error>
    ensures { Decodes message.now wanted out.old result out.new }
{
    let header = Header::decode(message)?;
    let channels = Channels::try_from(wanted)?;
    with_channels(message, header, channels, out)
}

// 7 where the picture has no room; then every chunk, and the marker.
fn with_channels(
    message: &[u8],
    header: Header,
    wanted: Channels,
    out: &mut [u8],
) -> Result<Decoded, Error>
    requires { header_of message.now ≡ Ok header }
    ensures { Reads (reading_into decoder header (channels_number wanted) message.now
        (length out.old)) out.old result out.new }
{
    let required = header.n_pixels() * (wanted.as_u8() as usize);
    if out.len() < required {
        return Err(Error::OutputBufferTooSmall {
            size: out.len(),
            required,
        });
    }
    let Ended { cut, at } = walk::whole(message, header, wanted, out);
    if cut {
        return Err(Error::UnexpectedBufferEnd { at: 0 });
    }
    chunk::read_end(&message[at..])?;
    Ok(Decoded {
        size: required,
        used: at + QOI_PADDING_SIZE,
    })
}

// Decodes a message to the channels of its own header, and answers that header.
pub fn decode_to_buf(out: &mut [u8], message: &[u8]) -> Result<Header, Error>
    ensures { DecodesToBuf message.now out.old result out.new }
{
    let header = header::decode_header(message)?;
    with_channels(message, header, header.channels, out)?;
    Ok(header)
}

// What follows the bytes that an answer says were used; the empty part at the message's end after a refusal, and
// where it says more than there are.
pub fn rest(message: &[u8], decoded: Result<Decoded, Error>) -> &[u8]
    ensures { IsRest message.entry (answer_of decoded) result }
{
    let end = message.len();
    let used = decoded.map_or(end, |done| done.used.min(end));
    &message[used..]
}

// Rain totals, each hour once: a message is decoded to its frame, the frame's cells are added to the totals of a lent
// table, and its hour is marked.
#![tactic(auto)]

ghost use Rattle.totals.specs.Counting.{Counts};
ghost use Rattle.totals.specs.Framing.{Frames};

use decode::Decoded;
use pixel::error::Error;
use pixel::types::Channels;

mod adding;

// The hours of a month.
pub const HOURS: usize = 744;

// A mark for each hour of a month, 0 as long as its frame is not counted.
pub type Marks = [u8; HOURS];

#[derive(Clone, Copy, Debug, PartialEq, Eq, Hash)]
pub enum Counted {
    // The frame is added and its hour marked. Message bytes used: header, chunks and marker.
    Done { used: usize },
    // The hour was marked before.
    Already,
}

// Counts an hour's message: its frame is wholly decoded, in a buffer of its own, before a cell is touched.
pub fn count(
    message: &[u8],
    hour: u64,
    frame: &mut [u8],
    totals: &mut [u64],
    marks: &mut Marks,
) -> Result<Counted, Error>
    ensures { Counts hour message.now frame.old totals.old marks.old
        result frame.new totals.new marks.new }
{
    if HOURS as u64 <= hour {
        return Err(Error::InvalidHour { hour });
    }
    let place = hour as usize;
    if marks[place] != 0 {
        return Ok(Counted::Already);
    }
    let used = read_frame(message, totals.len(), frame)?;
    if let Some(cell) = adding::first_past(frame, totals) {
        return Err(Error::TotalTooLarge { cell });
    }
    adding::add(frame, totals);
    marks[place] = 1;
    Ok(Counted::Done { used })
}

// Decodes a message to four channels, and answers how many bytes of it were used: its own refusals, then 2 for a source
// of three channels, then 20.
fn read_frame(message: &[u8], cells: usize, frame: &mut [u8]) -> Result<usize, Error>
    ensures { Frames message.now cells frame.old result frame.new }
{
    let Decoded { used, .. } = decode::decode(message, 4, frame)?;
    // Never refused here: a decode tests the header first.
    let header = header::decode_header(message)?;
    if header.channels == Channels::Rgb {
        return Err(Error::InvalidChannels { channels: 3 });
    }
    let pixels = header.n_pixels();
    if pixels != cells {
        return Err(Error::InvalidCellCount { pixels, cells });
    }
    Ok(used)
}

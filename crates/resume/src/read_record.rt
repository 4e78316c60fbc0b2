// Reading a record, left to right: a refusal carries the offset of the field that is cut or has the fault.
ghost use Rattle.std.specs.Prelude.{◌≡◌, ◌≤◌, length};
ghost use Rattle.pixel.specs.Bytes.{pixel_from, pixels_from};
ghost use Rattle.rules.specs.Record.{read_record as read_record_of, accept_state, fault_offset};
ghost use Rattle.resume.specs.State.{state_of, started_of, Answers};
ghost use Rattle.resume.specs.Asked.{started_if};

use crate::reader::Reader;
use crate::{Decoder, Slots, Started};
use header::Header;
use pixel::Pixel;
use pixel::consts::QOI_HEADER_SIZE;
use pixel::error::Error;
use pixel::types::Channels;

impl Decoder {
    // The state that a record holds, if it is of the message with this number.
    pub fn take_up(self, number: u64, record: &[u8]) -> Started
        ensures { Answers (read_record_of number «record».now) self result }
    {
        self.or_started(read_record(number, record))
    }

    // The faults of state, then bytes after the number, which ends at `end` in a record of this size; last of all, the
    // number of another message.
    fn accept(&self, expected: u64, end: usize, size: usize) -> Result<(), Error>
        ensures { started_if result self.now ≡ accept_state expected (state_of self.now) end size }
    {
        if !self.is_well_formed() {
            return Err(Error::BadState {
                at: self.fault_offset(),
            });
        }
        if end != size {
            return Err(Error::BadState { at: end });
        }
        if self.number != expected {
            return Err(Error::OtherMessage {
                number: self.number,
            });
        }
        Ok(())
    }

    // Where the record has the first field with a fault of state: byte position, pixel position, or else the current
    // pixel.
    #[tactic(auto, using(number::proofs::Laws::length_at_most_ten))]
    fn fault_offset(&self) -> usize
        ensures { result ≡ fault_offset (state_of self.now) }
    {
        let at_offset = QOI_HEADER_SIZE + number::len(self.wanted);
        if self.at < QOI_HEADER_SIZE {
            return at_offset;
        }
        let pixel_offset = at_offset + number::len(self.at as u64);
        if self.header.n_pixels() < self.pixel {
            return pixel_offset;
        }
        pixel_offset + number::len(self.pixel as u64)
    }
}

// The state that a record of the message with the number expected holds.
fn read_record(expected: u64, bytes: &[u8]) -> Result<Decoder, Error>
    ensures { started_of result ≡ read_record_of expected bytes.now }
{
    let header = Header::decode(bytes)?;
    let mut record = Reader {
        bytes,
        at: QOI_HEADER_SIZE,
    };
    let wanted = Channels::try_from(record.number()?)?;
    let at = record.number()? as usize;
    let pixel = record.number()? as usize;
    let current = record.bytes(4)?;
    let slots = record.bytes(256)?;
    let number = record.number()?;
    let decoder = Decoder {
        header,
        wanted: u64::from(wanted.as_u8()),
        at,
        pixel,
        left: header.n_pixels().saturating_sub(pixel),
        current: pixel_of(current),
        slots: slots_of(slots),
        number,
    };
    decoder.accept(expected, record.at, bytes.len())?;
    Ok(decoder)
}

// 64 pixels of four bytes each.
fn slots_of(bytes: &[u8]) -> Slots
    requires { 256 ≤ length bytes.now }
    ensures { result ≡ pixels_from 64 4 bytes.now }
{
    let mut slots = [Pixel::clear(); 64];
    for i in 0..64 {
        slots[i] = pixel_of(&bytes[i * 4..]);
    }
    slots
}

// The pixel that some bytes start with.
fn pixel_of(bytes: &[u8]) -> Pixel
    requires { 4 ≤ length bytes.now }
    ensures { result ≡ pixel_from 4 bytes.now }
{
    Pixel::new(bytes[0], bytes[1], bytes[2], bytes[3])
}

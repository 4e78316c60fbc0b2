// Writing a record: its fields from left to right.
ghost use Rattle.std.specs.Prelude.{◌≡◌, ◌≤◌, length};
ghost use Rattle.rules.specs.Bytes.{written_over};
ghost use Rattle.rules.specs.Record.{record_bytes};
ghost use Rattle.resume.specs.State.{state_of, Records};

use crate::Decoder;
use crate::writer::Writer;
use pixel::consts::QOI_HEADER_SIZE;
use pixel::error::Error;

impl Decoder {
    // Writes the record of the state; bytes after it stay.
    pub fn write_record(self, out: &mut [u8]) -> Result<usize, Error>
        ensures { Records (state_of self) out.old result out.new }
    {
        if !self.is_well_formed() {
            return Err(Error::BadState { at: 0 });
        }
        let required = self.record_len();
        if out.len() < required {
            return Err(Error::OutputBufferTooSmall {
                size: out.len(),
                required,
            });
        }
        self.put_record(out);
        Ok(required)
    }

    // The bytes that the record takes.
    #[tactic(auto, using(number::proofs::Laws::length_at_most_ten))]
    pub fn record_len(self) -> usize
        ensures { result ≡ length (record_bytes (state_of self)) }
    {
        let numbers = number::len(self.wanted)
            + number::len(self.at as u64)
            + number::len(self.pixel as u64)
            + number::len(self.number);
        QOI_HEADER_SIZE + numbers + 260
    }

    // Writes the record at the front of an output that has room for it.
    #[tactic(auto, using(crate::proofs::Parts::record_parts, header::proofs::Laws::header_length))]
    fn put_record(self, out: &mut [u8])
        requires { length (record_bytes (state_of self)) ≤ length out.old }
        ensures { out.new ≡ written_over (record_bytes (state_of self)) out.old }
    {
        let mut record = Writer { out, at: 0 };
        record.bytes(&self.header.encode());
        record.number(self.wanted);
        record.number(self.at as u64);
        record.number(self.pixel as u64);
        record.bytes(&self.current.rgba);
        record.pixels(self.slots);
        record.number(self.number);
    }
}

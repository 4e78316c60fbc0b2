// Reading a record's fields, one after another.
ghost use Rattle.std.specs.Prelude.{◌≡◌, ◌+◌, ◌≤◌, length, OnOk};
ghost use Rattle.pixel.specs.Bytes.{AllBytes};
ghost use Rattle.number.specs.Seven.{read_number};
ghost use Rattle.resume.specs.Asked.{value_of, used_of, part_of, next_bytes};

use number::Number;
use pixel::error::Error;

// A record's bytes, and where its next field starts.
#[derive(Drop)]
pub struct Reader<'a> {
    pub bytes: &'a [u8],
    pub at: usize,
    ghost inside: { at ≤ length bytes.now },
    ghost are_bytes: { AllBytes bytes.now },
}

impl<'a> Reader<'a> {
    // The next number.
    pub fn number(&mut self) -> Result<u64, Error>
        ensures value { result ≡ value_of (read_number self.old.bytes.now self.old.at) }
        ensures next { self.new.at ≡ self.old.at + used_of (read_number self.old.bytes.now self.old.at) }
        ensures same { self.new.bytes.now ≡ self.old.bytes.now }
    {
        let Number { value, used } = number::read(self.bytes, self.at)?;
        self.at += used;
        Ok(value)
    }

    // The next bytes, so many of them.
    pub fn bytes(&mut self, size: usize) -> Result<&'a [u8], Error>
        ensures value { part_of result ≡ next_bytes self.old.bytes.now self.old.at size }
        ensures next { OnOk result (self.new.at ≡ self.old.at + size) }
        ensures same { self.new.bytes.now ≡ self.old.bytes.now }
    {
        let start = self.at;
        if self.bytes.len() - start < size {
            return Err(Error::UnexpectedBufferEnd { at: start });
        }
        self.at += size;
        Ok(&self.bytes[start..self.at])
    }
}

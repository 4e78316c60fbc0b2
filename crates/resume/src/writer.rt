// Writing a record's fields, one after another.
ghost use Rattle.std.specs.Prelude.{◌≡◌, ◌+◌, ◌≤◌, length};
ghost use Rattle.number.specs.Seven.{seven_bits};
ghost use Rattle.rules.specs.Bytes.{Puts};
ghost use Rattle.rules.specs.Record.{pixels_bytes};

use crate::Slots;

// An output, and where the next field goes.
#[derive(Drop)]
pub struct Writer<'a> {
    pub out: &'a mut [u8],
    pub at: usize,
}

impl Writer<'_> {
    // Four bytes each.
    pub fn pixels(&mut self, pixels: Slots)
        requires { self.old.at + length (pixels_bytes pixels) ≤ length self.old.out.now }
        ensures same { self.new.out.ghost_name ≡ self.old.out.ghost_name }
        ensures long { length self.new.out.now ≡ length self.old.out.now }
        ensures written { Puts self.old.at (pixels_bytes pixels) self.old.out.now self.new.at self.new.out.now }
    {
        self.at = put_pixels(self.out, self.at, pixels);
    }

    pub fn number(&mut self, value: u64)
        requires { self.old.at + length (seven_bits value) ≤ length self.old.out.now }
        ensures same { self.new.out.ghost_name ≡ self.old.out.ghost_name }
        ensures long { length self.new.out.now ≡ length self.old.out.now }
        ensures written { Puts self.old.at (seven_bits value) self.old.out.now self.new.at self.new.out.now }
    {
        self.at += number::write(value, &mut self.out[self.at..]).unwrap();
    }

    pub fn bytes(&mut self, bytes: &[u8])
        requires { self.old.at + length bytes.now ≤ length self.old.out.now }
        ensures same { self.new.out.ghost_name ≡ self.old.out.ghost_name }
        ensures long { length self.new.out.now ≡ length self.old.out.now }
        ensures written { Puts self.old.at bytes.now self.old.out.now self.new.at self.new.out.now }
    {
        self.at = put(self.out, self.at, bytes);
    }
}

// Writes pixels at a place, and answers where they end. They are handed over by value: so LLVM sees that the output is
// no part of them, and copies them at once.
fn put_pixels(out: &mut [u8], start: usize, pixels: Slots) -> usize
    requires { start + length (pixels_bytes pixels) ≤ length out.old }
    ensures { Puts start (pixels_bytes pixels) out.old result out.new }
{
    let mut at = start;
    for pixel in &pixels {
        at = put(out, at, &pixel.rgba);
    }
    at
}

// Writes bytes at a place, and answers where they end.
fn put(out: &mut [u8], at: usize, bytes: &[u8]) -> usize
    requires { at + length bytes.now ≤ length out.old }
    ensures { Puts at bytes.now out.old result out.new }
{
    let end = at + bytes.len();
    out[at..end].copy_from_slice(bytes);
    end
}

// A decode as a state that moves on by value: where it stands, a start, and the record that another worker takes up.
#![tactic(auto)]

ghost use Rattle.std.specs.Prelude.{◌≡◌};
ghost use Rattle.header.specs.Header.{saturated};
ghost use Rattle.rules.specs.Reading.{size_wanted};

use header::Header;
use pixel::Pixel;
use pixel::error::Error;

mod read_record;
mod reader;
mod run;
mod start;
mod well_formed;
mod write_record;
mod writer;

pub type Slots = [Pixel; 64];

// Where a decode stands. A caller may make up any state: what uses one tests it.
#[derive(Clone, Copy, Debug, PartialEq, Eq, Hash)]
pub struct Decoder {
    pub header: Header,
    // Channels wanted, 3 or 4.
    pub wanted: u64,
    // Byte position in the message.
    pub at: usize,
    // Pixel position in the picture.
    pub pixel: usize,
    // Pixels left: with the pixel position, those of the picture.
    pub left: usize,
    pub current: Pixel,
    pub slots: Slots,
    // The broker's number of the message.
    pub number: u64,
}

// The answer, and the state to go on with: the old one after a refusal.
#[derive(Clone, Copy, Debug, PartialEq, Eq, Hash)]
pub struct Started {
    pub answer: Result<(), Error>,
    pub decoder: Decoder,
}

// What some steps came to.
#[derive(Clone, Copy, Debug, PartialEq, Eq, Hash)]
pub enum Progress {
    // There is more to do.
    More,
    // Bytes written by the whole decode, and message bytes used.
    Done { size: usize, used: usize },
}

// The answer, and the state to go on with: an end leaves it.
#[derive(Clone, Copy, Debug, PartialEq, Eq, Hash)]
pub struct Stepped {
    pub answer: Result<Progress, Error>,
    pub decoder: Decoder,
}

impl Decoder {
    pub fn header(self) -> Header
        ensures { result ≡ self.header }
    {
        self.header
    }

    // The channels wanted.
    pub fn channels(self) -> u64
        ensures { result ≡ self.wanted }
    {
        self.wanted
    }

    // The message's number.
    pub fn number(self) -> u64
        ensures { result ≡ self.number }
    {
        self.number
    }

    // The bytes of the whole picture, saturating.
    pub fn required_buf_len(self) -> usize
        ensures { result ≡ saturated (size_wanted self.header self.wanted) }
    {
        header::saturating_mul(self.header.n_pixels(), self.wanted as usize)
    }
}

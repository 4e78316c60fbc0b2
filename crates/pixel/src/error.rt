// The refusals of document 01, and of document 02 12 (Q-7) and 19 to 21 (Q-13): number, figures and words of each.
ghost use Rattle.std.specs.Prelude.{◌≡◌, length, Some};
ghost use Rattle.text.specs.Text.{text_of as bytes_of_text, put_over};
ghost use Rattle.pixel.specs.Refusal.{number_of, figures_of};
ghost use Rattle.pixel.specs.Words.{words_of, worded_in};

use crate::words;
use std::{fmt, str};
use text::Text;

// The figures of an answer, zeros after them.
pub type FourFigures = [u64; 4];

#[derive(Clone, Copy, Debug, PartialEq, Eq, Hash)]
pub enum Error {
    // Input ended before what was to be read; in a record, within the field at this offset. Elsewhere it is 0.
    UnexpectedBufferEnd {
        at: usize,
    },
    // Neither 3 nor 4 channels; 255 stands for any larger number.
    InvalidChannels {
        channels: u8,
    },
    // Neither 0 nor 1; 255 stands for any larger number.
    InvalidColorSpace {
        colorspace: u8,
    },
    // The first four bytes are not "qoif".
    InvalidMagic {
        magic: u32,
    },
    // No pixels, or more than 400,000,000.
    InvalidImageDimensions {
        width: u32,
        height: u32,
    },
    // The pixel bytes are no multiple of the pixels.
    InvalidImageLength {
        size: usize,
        width: u32,
        height: u32,
    },
    // The lent output is shorter than required.
    OutputBufferTooSmall {
        size: usize,
        required: usize,
    },
    // What follows the last pixel is not the marker.
    InvalidPadding,
    // A record with a fault in the field at this offset, or with more bytes from there on; of a bad state it is 0.
    BadState {
        at: usize,
    },
    // A run is longer than the pixels left (strict).
    RunPastImage,
    // Something follows the marker (strict).
    BytesAfterMarker,
    // A record of a message with another number than the one expected.
    OtherMessage {
        number: u64,
    },
    // An hour above 743, a month's last.
    InvalidHour {
        hour: u64,
    },
    // A frame whose pixels are not as many as the table's cells.
    InvalidCellCount {
        pixels: usize,
        cells: usize,
    },
    // The first cell whose total would pass 2^64-1.
    TotalTooLarge {
        cell: usize,
    },
}

impl Error {
    // The number that the documents give it.
    pub fn number(self) -> u64
        ensures { result ≡ number_of self }
    {
        match self {
            Error::UnexpectedBufferEnd { .. } => 1,
            Error::InvalidChannels { .. } => 2,
            Error::InvalidColorSpace { .. } => 3,
            Error::InvalidMagic { .. } => 4,
            Error::InvalidImageDimensions { .. } => 5,
            Error::InvalidImageLength { .. } => 6,
            Error::OutputBufferTooSmall { .. } => 7,
            Error::InvalidPadding => 8,
            Error::BadState { .. } => 9,
            Error::RunPastImage => 10,
            Error::BytesAfterMarker => 11,
            Error::OtherMessage { .. } => 12,
            Error::InvalidHour { .. } => 19,
            Error::InvalidCellCount { .. } => 20,
            Error::TotalTooLarge { .. } => 21,
        }
    }

    // The figures in the documents' order, zeros after them.
    pub fn figures(self) -> FourFigures
        ensures { result ≡ figures_of self }
    {
        match self {
            Error::UnexpectedBufferEnd { at } => [at as u64, 0, 0, 0],
            Error::InvalidChannels { channels } => [u64::from(channels), 0, 0, 0],
            Error::InvalidColorSpace { colorspace } => [u64::from(colorspace), 0, 0, 0],
            Error::InvalidMagic { magic } => [u64::from(magic), 0, 0, 0],
            Error::InvalidImageDimensions { width, height } => {
                [u64::from(width), u64::from(height), 0, 0]
            }
            Error::InvalidImageLength {
                size,
                width,
                height,
            } => [size as u64, u64::from(width), u64::from(height), 0],
            Error::OutputBufferTooSmall { size, required } => [size as u64, required as u64, 0, 0],
            Error::BadState { at } => [at as u64, 0, 0, 0],
            Error::OtherMessage { number } => [number, 0, 0, 0],
            Error::InvalidHour { hour } => [hour, 0, 0, 0],
            Error::InvalidCellCount { pixels, cells } => [pixels as u64, cells as u64, 0, 0],
            Error::TotalTooLarge { cell } => [cell as u64, 0, 0, 0],
            Error::InvalidPadding | Error::RunPastImage | Error::BytesAfterMarker => [0; 4],
        }
    }

    // Writes the refusal in words at the front of an output, and answers how many bytes they are; nothing where there is
    // no room for them, which is 7.
    pub fn text(self, out: &mut [u8]) -> Result<usize, Error>
        ensures value { result ≡ worded_in (words_of (number_of self) (figures_of self)) (length out.old) }
        ensures out_after { out.new ≡ put_over (words_of (number_of self) (figures_of self)) out.old }
    {
        text_of(self.number(), self.figures(), out)
    }
}

impl std::error::Error for Error {}

impl fmt::Display for Error {
    ghost output = { λ error. Some (words_of (number_of error) (figures_of error)) };

    // The words that `text` writes.
    fn fmt<W: fmt::Write>(&self, f: &mut fmt::Formatter<W>) -> fmt::Result {
        let mut bytes = [0; 160];
        let size = self.text(&mut bytes).unwrap();
        let words = str::from_utf8(&bytes[..size]).unwrap();
        f.write_str(words)
    }
}

// Writes the words of a number and its figures, also of a number that is no refusal.
pub fn text_of(number: u64, figures: FourFigures, out: &mut [u8]) -> Result<usize, Error>
    ensures value { result ≡ worded_in (words_of number figures) (length out.old) }
    ensures out_after { out.new ≡ put_over (words_of number figures) out.old }
{
    put_text(words::of(number, figures[0], figures[1], figures[2]), out)
}

// Puts a text at the front of an output; nothing where there is no room for it.
#[tactic(auto, unfolding(crate::specs::Words::worded_in))]
pub fn put_text(text: Text, out: &mut [u8]) -> Result<usize, Error>
    ensures value { result ≡ worded_in (bytes_of_text text) (length out.old) }
    ensures out_after { out.new ≡ put_over (bytes_of_text text) out.old }
{
    let size = out.len();
    let required = text.put(out);
    if size < required {
        return Err(Error::OutputBufferTooSmall { size, required });
    }
    Ok(required)
}

// The functions that a host calls: each returns 0 or document 01's refusal number, and fills four figures. A library
// exports nothing: C links crate `qoi_c`, which calls these by the same names.
#![tactic(auto)]

ghost use Rattle.std.specs.Prelude.{◌≡◌, ◌∷◌, []};
ghost use Rattle.header.specs.Header.{header_of};
ghost use Rattle.rules.specs.Figures.{refusal_figures, header_figures};
ghost use Rattle.resume.specs.State.{state_of};
ghost use Rattle.qoi.specs.Hosted.{IsDecode, IsEncode, IsStrict, IsRecord, IsStart, IsRun, IsText, IsCount};

use decode::Decoded;
use pixel::error;
use pixel::error::{Error, FourFigures};
use resume::{Decoder, Progress, Stepped};
use strict::Accepted;
use totals::{Counted, Marks};

// A refusal's number, with its figures.
fn refuse(e: Error, figures: &mut FourFigures) -> u64
    ensures { result ∷ figures.new ≡ refusal_figures e }
{
    *figures = e.figures();
    e.number()
}

// The number of an answer that is no refusal, with its one or two figures.
fn answer(number: u64, first: u64, second: u64, figures: &mut FourFigures) -> u64
    ensures { result ∷ figures.new ≡ number ∷ first ∷ second ∷ 0 ∷ 0 ∷ [] }
{
    *figures = [first, second, 0, 0];
    number
}

// Writes a state's record, and answers with `number` and the record's length.
fn answer_record(number: u64, decoder: Decoder, part: &mut [u8], figures: &mut FourFigures) -> u64
    ensures { IsRecord number (state_of decoder) part.old (result ∷ figures.new) part.new }
{
    match decoder.write_record(part) {
        Err(e) => refuse(e, figures),
        Ok(size) => answer(number, size as u64, 0, figures),
    }
}

// Width, height, channels and colour space of a message.
#[unsafe(no_mangle)]
pub extern "C" fn pivotshade_header(message: &[u8], figures: &mut FourFigures) -> u64
    ensures { result ∷ figures.new ≡ header_figures (header_of message.now) }
{
    match header::decode_header(message) {
        Err(e) => refuse(e, figures),
        Ok(h) => {
            *figures = [
                u64::from(h.width),
                u64::from(h.height),
                u64::from(h.channels.as_u8()),
                u64::from(h.colorspace.as_u8()),
            ];
            0
        }
    }
}

// Bytes written and message bytes used by a decode to 3 or 4 wanted channels.
#[unsafe(no_mangle)]
pub extern "C" fn pivotshade_decode(
    message: &[u8],
    wanted: u64,
    out: &mut [u8],
    figures: &mut FourFigures,
) -> u64
    ensures { IsDecode message.now wanted out.old (result ∷ figures.new) out.new }
{
    match decode::decode(message, wanted, out) {
        Err(e) => refuse(e, figures),
        Ok(Decoded { size, used }) => answer(0, size as u64, used as u64, figures),
    }
}

// Bytes written by the encode of a picture, whose length gives 3 or 4 channels.
#[unsafe(no_mangle)]
pub extern "C" fn pivotshade_encode(
    pixels: &[u8],
    width: u32,
    height: u32,
    colorspace: u64,
    out: &mut [u8],
    figures: &mut FourFigures,
) -> u64
    ensures { IsEncode pixels.now width height colorspace out.old
        (result ∷ figures.new) out.new }
{
    match encode::encode(pixels, width, height, colorspace, out) {
        Err(e) => refuse(e, figures),
        Ok(size) => answer(0, size as u64, 0, figures),
    }
}

// Chunks and bytes of a message that passes the strict check.
#[unsafe(no_mangle)]
pub extern "C" fn pivotshade_strict(message: &[u8], figures: &mut FourFigures) -> u64
    ensures { IsStrict message.now (result ∷ figures.new) }
{
    match strict::strict(message) {
        Err(e) => refuse(e, figures),
        Ok(Accepted { chunks, bytes, .. }) => answer(0, chunks as u64, bytes as u64, figures),
    }
}

// Starts a decode that can be taken over, of the message with this number, and writes its record: the record's length.
#[unsafe(no_mangle)]
pub extern "C" fn pivotshade_start(
    message: &[u8],
    number: u64,
    wanted: u64,
    record: &mut [u8],
    figures: &mut FourFigures,
) -> u64
    ensures { IsStart message.now number wanted «record».old
        (result ∷ figures.new) «record».new }
{
    let started = Decoder::idle().start(message, number, wanted);
    match started.answer {
        Err(e) => refuse(e, figures),
        Ok(()) => answer_record(0, started.decoder, record, figures),
    }
}

// Takes up a record of the message with this number and does at most `steps` steps. 0 is the end, with the decode's
// figures; 256 is more to do, with the next record's length.
#[unsafe(no_mangle)]
pub extern "C" fn pivotshade_run(
    message: &[u8],
    number: u64,
    record: &[u8],
    out: &mut [u8],
    steps: u64,
    next: &mut [u8],
    figures: &mut FourFigures,
) -> u64
    ensures { IsRun message.now number «record».now out.old steps
        next.old (result ∷ figures.new) out.new next.new }
{
    let started = Decoder::idle().take_up(number, record);
    if let Err(e) = started.answer {
        return refuse(e, figures);
    }
    let Stepped {
        answer: ran,
        decoder,
    } = started.decoder.run(message, out, steps);
    match ran {
        Err(e) => refuse(e, figures),
        Ok(Progress::Done { size, used }) => answer(0, size as u64, used as u64, figures),
        Ok(Progress::More) => answer_record(256, decoder, next, figures),
    }
}

// Counts an hour's message into a table: the message bytes used. 257 is counted already.
#[unsafe(no_mangle)]
pub extern "C" fn pivotshade_count(
    message: &[u8],
    hour: u64,
    frame: &mut [u8],
    totals: &mut [u64],
    marks: &mut Marks,
    figures: &mut FourFigures,
) -> u64
    ensures { IsCount message.now hour frame.old totals.old marks.old
        (result ∷ figures.new) frame.new totals.new marks.new }
{
    match totals::count(message, hour, frame, totals, marks) {
        Err(e) => refuse(e, figures),
        Ok(Counted::Already) => answer(257, 0, 0, figures),
        Ok(Counted::Done { used }) => answer(0, used as u64, 0, figures),
    }
}

// A refusal in words, by its number and figures: how many bytes they are.
#[unsafe(no_mangle)]
pub extern "C" fn pivotshade_text(
    number: u64,
    figures: &FourFigures,
    out: &mut [u8],
    answered: &mut FourFigures,
) -> u64
    ensures { IsText number figures.now out.old
        (result ∷ answered.new) out.new }
{
    match error::text_of(number, *figures, out) {
        Err(e) => refuse(e, answered),
        Ok(size) => answer(0, size as u64, 0, answered),
    }
}

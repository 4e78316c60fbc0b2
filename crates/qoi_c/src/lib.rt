// What C links: each function of crate `qoi` under its own name, with the same clauses. The kit makes a crate a library
// or a static library; tools/determined holds these clauses to that crate's.
#![tactic(auto)]

ghost use Rattle.std.specs.Prelude.{◌≡◌, ◌∷◌};
ghost use Rattle.header.specs.Header.{header_of};
ghost use Rattle.rules.specs.Figures.{header_figures};
ghost use Rattle.qoi.specs.Hosted.{IsDecode, IsEncode, IsStrict, IsStart, IsRun, IsText, IsCount};

use pixel::error::FourFigures;
use totals::Marks;

// Width, height, channels and colour space of a message.
#[unsafe(no_mangle)]
pub extern "C" fn pivotshade_header(message: &[u8], figures: &mut FourFigures) -> u64
    ensures { result ∷ figures.new ≡ header_figures (header_of message.now) }
{
    qoi::pivotshade_header(message, figures)
}

// Bytes written and message bytes used by a decode to 3 or 4 wanted channels.
#[unsafe(no_mangle)]
pub extern "C" fn pivotshade_decode(
    message: &[u8],
    wanted: u64,
    out: &mut [u8],
    figures: &mut FourFigures,
) -> u64
    ensures { IsDecode message.now wanted out.old (result ∷ figures.new) out.new }
{
    qoi::pivotshade_decode(message, wanted, out, figures)
}

// Bytes written by the encode of a picture, whose length gives 3 or 4 channels.
#[unsafe(no_mangle)]
pub extern "C" fn pivotshade_encode(
    pixels: &[u8],
    width: u32,
    height: u32,
    colorspace: u64,
    out: &mut [u8],
    figures: &mut FourFigures,
) -> u64
    ensures { IsEncode pixels.now width height colorspace out.old
        (result ∷ figures.new) out.new }
{
    qoi::pivotshade_encode(pixels, width, height, colorspace, out, figures)
}

// Chunks and bytes of a message that passes the strict check.
#[unsafe(no_mangle)]
pub extern "C" fn pivotshade_strict(message: &[u8], figures: &mut FourFigures) -> u64
    ensures { IsStrict message.now (result ∷ figures.new) }
{
    qoi::pivotshade_strict(message, figures)
}

// Starts a decode that can be taken over, of the message with this number, and writes its record: the record's length.
#[unsafe(no_mangle)]
pub extern "C" fn pivotshade_start(
    message: &[u8],
    number: u64,
    wanted: u64,
    record: &mut [u8],
    figures: &mut FourFigures,
) -> u64
    ensures { IsStart message.now number wanted «record».old
        (result ∷ figures.new) «record».new }
{
    qoi::pivotshade_start(message, number, wanted, record, figures)
}

// Takes up a record of the message with this number and does at most `steps` steps. 0 is the end, with the decode's
// figures; 256 is more to do, with the next record's length.
#[unsafe(no_mangle)]
pub extern "C" fn pivotshade_run(
    message: &[u8],
    number: u64,
    record: &[u8],
    out: &mut [u8],
    steps: u64,
    next: &mut [u8],
    figures: &mut FourFigures,
) -> u64
    ensures { IsRun message.now number «record».now out.old steps
        next.old (result ∷ figures.new) out.new next.new }
{
    qoi::pivotshade_run(message, number, record, out, steps, next, figures)
}

// Counts an hour's message into a table: the message bytes used. 257 is counted already.
#[unsafe(no_mangle)]
pub extern "C" fn pivotshade_count(
    message: &[u8],
    hour: u64,
    frame: &mut [u8],
    totals: &mut [u64],
    marks: &mut Marks,
    figures: &mut FourFigures,
) -> u64
    ensures { IsCount message.now hour frame.old totals.old marks.old
        (result ∷ figures.new) frame.new totals.new marks.new }
{
    qoi::pivotshade_count(message, hour, frame, totals, marks, figures)
}

// A refusal in words, by its number and figures: how many bytes they are.
#[unsafe(no_mangle)]
pub extern "C" fn pivotshade_text(
    number: u64,
    figures: &FourFigures,
    out: &mut [u8],
    answered: &mut FourFigures,
) -> u64
    ensures { IsText number figures.now out.old
        (result ∷ answered.new) out.new }
{
    qoi::pivotshade_text(number, figures, out, answered)
}

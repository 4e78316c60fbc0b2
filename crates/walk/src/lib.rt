// The next n chunks of a decode, from any place: the hot loops.
#![tactic(auto)]

ghost use Rattle.std.specs.Prelude.{◌≡◌, min};
ghost use Rattle.pixel.specs.Types.{channels_number};
ghost use Rattle.header.specs.Header.{pixel_count};
ghost use Rattle.rules.specs.Reading.{start_place};
ghost use Rattle.walk.specs.Walking.{place_of, walk_of, ended_of, end_of, fits as fitting, walking_into};

use careful::careful;
use four::Four;
use header::Header;
use lanes::Lanes;
use layout::Layout;
use pixel::consts::QOI_HEADER_SIZE;
use pixel::types::Channels;
use pixel::{Pixel, packed};
use rounds::rounds;
use spot::Spot;
use three::Three;

mod careful;
mod four;
mod lanes;
mod layout;
mod quick;
mod rounds;
mod slots;
mod spot;
mod three;

// Where a decode stands between two chunks.
#[derive(Clone, Copy)]
pub struct Place {
    pub at: usize,
    pub pixel: usize,
    pub current: Pixel,
    pub slots: [Pixel; 64],
}

// Where some chunks led, how many more were allowed, and whether the next one is cut short.
#[derive(Clone, Copy)]
pub struct Walked {
    pub cut: bool,
    pub spare: usize,
    pub place: Place,
}

// Where every chunk of a message led, and whether the next one is cut short.
#[derive(Clone, Copy)]
pub struct Ended {
    pub cut: bool,
    pub at: usize,
}

// Does at most `steps` chunks from a place with `left` pixels left, into the part of the output that starts at its
// pixel. Where the input does not fit, it does none.
pub fn walk(
    message: &[u8],
    header: Header,
    wanted: Channels,
    place: Place,
    left: usize,
    out: &mut [u8],
    steps: usize,
) -> Walked
    ensures { walk_of result out.new ≡ walking_into header (channels_number wanted)
        message.now left steps (place_of place) out.old }
{
    match wanted {
        Channels::Rgb => walk_in::<Three>(message, header, place, left, out, steps),
        Channels::Rgba => walk_in::<Four>(message, header, place, left, out, steps),
    }
}

// Does every chunk of a message from its start. Where the input does not fit, it does none.
pub fn whole(message: &[u8], header: Header, wanted: Channels, out: &mut [u8]) -> Ended
    ensures { ended_of result out.new ≡ end_of (walking_into header (channels_number wanted)
        message.now (pixel_count header) (pixel_count header) start_place out.old) }
{
    match wanted {
        Channels::Rgb => whole_in::<Three>(message, header, out),
        Channels::Rgba => whole_in::<Four>(message, header, out),
    }
}

// The walk where a pixel lies in the output as L says.
fn walk_in<L: Layout>(
    message: &[u8],
    header: Header,
    place: Place,
    left: usize,
    out: &mut [u8],
    steps: usize,
) -> Walked
    ensures { walk_of result out.new ≡ walking_into header L.CHANNELS
        message.now left steps (place_of place) out.old }
{
    if !fits::<L>(
        message.len(),
        header,
        place.at,
        place.pixel,
        left,
        out.len(),
        steps,
    ) {
        return Walked {
            cut: false,
            spare: steps,
            place,
        };
    }
    let source = header.channels;
    let current = packed::of_pixel(place.current);
    let mut held = slots::hold(place.slots);
    if !rounds::may_follow::<L>(current) {
        let first = Spot {
            at: place.at,
            done: 0,
            spare: steps,
            lanes: Lanes::of_packed(current),
        };
        let end = careful::<L>(message, source, left, first, &mut held, out);
        return end.walked(place.pixel, held);
    }
    let spot = rounds::<L>(
        message, source, left, place.at, steps, current, &mut held, out,
    );
    let end = careful::<L>(message, source, left, spot, &mut held, out);
    end.walked(place.pixel, held)
}

// The walk of a whole message where a pixel lies in the output as L says.
fn whole_in<L: Layout>(message: &[u8], header: Header, out: &mut [u8]) -> Ended
    ensures { ended_of result out.new ≡ end_of (walking_into header L.CHANNELS
        message.now (pixel_count header) (pixel_count header) start_place out.old) }
{
    let source = header.channels;
    let missing = header.n_pixels();
    if !fits::<L>(
        message.len(),
        header,
        QOI_HEADER_SIZE,
        0,
        missing,
        out.len(),
        missing,
    ) {
        return Ended {
            cut: false,
            at: QOI_HEADER_SIZE,
        };
    }
    let mut held: [u32; 64] = [0; 64];
    let start = packed::pack(0, 0, 0, 255);
    let spot = rounds::<L>(
        message,
        source,
        missing,
        QOI_HEADER_SIZE,
        missing,
        start,
        &mut held,
        out,
    );
    if spot.done == missing {
        return Ended {
            cut: false,
            at: spot.at,
        };
    }
    let end = careful::<L>(message, source, missing, spot, &mut held, out);
    Ended {
        cut: end.cut,
        at: end.spot.at,
    }
}

// Whether the header passes its test, and place, output and steps lie within what it says.
fn fits<L: Layout>(
    message: usize,
    header: Header,
    at: usize,
    pixel: usize,
    left: usize,
    room: usize,
    steps: usize,
) -> bool
    ensures { result ≡ fitting header L.CHANNELS message left steps at pixel room }
{
    if !header.dimensions_fit() {
        return false;
    }
    if message < at {
        return false;
    }
    let pixels = header.n_pixels();
    if pixels < pixel {
        return false;
    }
    if pixels - pixel != left {
        return false;
    }
    if left + 1 < steps {
        return false;
    }
    let needed = left * L::CHANNELS;
    if room < needed {
        return false;
    }
    true
}

// The lesser of two numbers.
pub fn least(a: usize, b: usize) -> usize
    ensures { result ≡ min a b }
{
    a.min(b)
}

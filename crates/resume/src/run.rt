// A run of steps: the tests of state, output and message, the walk over the chunks, and the marker.
ghost use Rattle.std.specs.Prelude.{◌≡◌, ◌≤◌, length};
ghost use Rattle.rules.specs.Reading.{closing};
ghost use Rattle.rules.specs.Step.{running};
ghost use Rattle.resume.specs.Asked.{Ready, size_for, walk_answer};
ghost use Rattle.resume.specs.Run.{ran_of, one_step};
ghost use Rattle.resume.specs.State.{state_of};

use crate::{Decoder, Progress, Stepped};
use pixel::consts::QOI_PADDING_SIZE;
use pixel::error::Error;
use pixel::types::Channels;
use walk::{Place, Walked};

impl Decoder {
    // One chunk (one pixel for an ff that is not consumed) or, with no pixel left, the marker test.
    pub fn step(self, message: &[u8], out: &mut [u8]) -> Stepped
        ensures { ran_of result out.new ≡ one_step message.now (state_of self) out.old }
    {
        self.run(message, out, 1)
    }

    // At most `steps` steps: what a worker does between two checkpoints.
    pub fn run(self, message: &[u8], out: &mut [u8], steps: u64) -> Stepped
        ensures { ran_of result out.new ≡ running message.now steps (state_of self) out.old }
    {
        if steps == 0 {
            return Stepped {
                answer: Ok(Progress::More),
                decoder: self,
            };
        }
        match self.picture_size(message.len(), out.len()) {
            Ok(size) => self.go_on(message, out, steps as usize, size),
            Err(e) => Stepped {
                answer: Err(e),
                decoder: self,
            },
        }
    }

    // The bytes of the whole picture, where state, message and output are such that a run may go on.
    fn picture_size(&self, message: usize, room: usize) -> Result<usize, Error>
        ensures { result ≡ size_for (state_of self.now) message room }
    {
        if !self.is_well_formed() {
            return Err(Error::BadState { at: 0 });
        }
        let required = self.required_buf_len();
        if room < required {
            return Err(Error::OutputBufferTooSmall {
                size: room,
                required,
            });
        }
        if message < self.at {
            return Err(Error::UnexpectedBufferEnd { at: 0 });
        }
        Ok(required)
    }

    // The chunks, into the part of the output that starts at the pixel position, so that what stands before it cannot be
    // harmed.
    fn go_on(self, message: &[u8], out: &mut [u8], steps: usize, size: usize) -> Stepped
        requires { Ready (state_of self) message.now out.old size }
        ensures { ran_of result out.new ≡ running message.now steps (state_of self) out.old }
    {
        let Decoder {
            at,
            pixel,
            left,
            current,
            slots,
            ..
        } = self;
        let from = pixel * self.wanted as usize;
        let walked = walk::walk(
            message,
            self.header,
            Channels::try_from(self.wanted).unwrap(),
            Place {
                at,
                pixel,
                current,
                slots,
            },
            left,
            &mut out[from..],
            walk::least(steps, left + 1),
        );
        let Place {
            at,
            pixel,
            current,
            slots,
        } = walked.place;
        Stepped {
            answer: answer(walked, message, size),
            decoder: Decoder {
                at,
                pixel,
                left: self.header.n_pixels() - pixel,
                current,
                slots,
                ..self
            },
        }
    }
}

// What a walk comes to: a chunk is cut short, no step is left, or else the marker test is due.
fn answer(walked: Walked, message: &[u8], size: usize) -> Result<Progress, Error>
    requires { walked.place.at ≤ length message.now }
    ensures { result ≡ walk_answer walked.cut walked.spare (closing size message.now walked.place.at) }
{
    if walked.cut {
        return Err(Error::UnexpectedBufferEnd { at: 0 });
    }
    if walked.spare == 0 {
        return Ok(Progress::More);
    }
    let at = walked.place.at;
    chunk::read_end(&message[at..])?;
    Ok(Progress::Done {
        size,
        used: at + QOI_PADDING_SIZE,
    })
}

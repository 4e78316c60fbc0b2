// The test of a state.
ghost use Rattle.std.specs.Prelude.{◌≡◌};
ghost use Rattle.rules.specs.Step.{well_formed};
ghost use Rattle.resume.specs.State.{state_of};

use crate::Decoder;
use pixel::consts::QOI_HEADER_SIZE;

impl Decoder {
    // Whether the state is well formed.
    pub(crate) fn is_well_formed(&self) -> bool
        ensures { result ≡ well_formed (state_of self.now) }
    {
        let pixels = self.header.n_pixels();
        self.header.dimensions_fit()
            && QOI_HEADER_SIZE <= self.at
            && self.pixel <= pixels
            && self.left == pixels - self.pixel
            && (self.wanted == 4 || self.wanted == 3 && self.current.a() == 255)
    }
}

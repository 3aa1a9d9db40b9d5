//! The duration: its seconds, and then its nanoseconds.
ghost use Rattle.elements.specs.Scalars.{duration};

use crate::element::Element;
use crate::impls::pairs::{claim_both, encode_both};
use format::duration::Duration;
use format::error::EncodeError;
use interfaces::enc::encoder::Encoder;

impl Element for Duration {
    ghost meaning = { duration };

    fn encode<E: Encoder>(&self, encoder: &mut E) -> Result<(), EncodeError> {
        encode_both(&self.as_secs(), &self.subsec_nanos(), encoder)
    }

    fn claim(&self) -> Option<u64> {
        claim_both(&self.as_secs(), &self.subsec_nanos())
    }
}

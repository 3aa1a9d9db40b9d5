//! The duration: its seconds, and then its nanoseconds.
ghost use Rattle.meanings.proofs.Laws.{duration_laws};
ghost use Rattle.readings.specs.Scalars.{duration_reading};

use crate::decode::Decode;
use elements::element::Element;
use format::duration::Duration;
use format::error::DecodeError;
use interfaces::de::decoder::Decoder;
use scalars::time::decode_duration;

impl Decode for Duration {
    ghost reading = { duration_reading };

    ghost laws = { duration_laws };

    fn decode_value<D: Decoder>(decoder: &mut D) -> Result<Duration, DecodeError> {
        decode_duration(decoder)
    }
}

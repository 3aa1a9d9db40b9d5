//! The double.
ghost use Rattle.meanings.proofs.Laws.{double_laws};
ghost use Rattle.readings.specs.Scalars.{double_reading};

use crate::decode::Decode;
use elements::element::Element;
use format::double::F64;
use format::error::DecodeError;
use interfaces::de::decoder::Decoder;
use scalars::floats::decode_double;

impl Decode for F64 {
    ghost reading = { λ o i. double_reading o };

    ghost laws = { double_laws };

    fn decode_value<D: Decoder>(decoder: &mut D) -> Result<F64, DecodeError> {
        decode_double(decoder)
    }
}

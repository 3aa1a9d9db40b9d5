//! The double: its 64 bits in the byte order, in both integer encodings.
//!
//! That the bits are 64 is a clause and no ghost field: to proofs `F64::from_bits` gives the record of any number, and what a double's values are is said by its meaning.
ghost use Rattle.format.specs.Integers.{unsigned_range};
ghost use Rattle.interfaces.specs.Calls.{Reads};
ghost use Rattle.interfaces.specs.Decodes.{Passes};
ghost use Rattle.readings.specs.Scalars.{next_double, double_reading};

use format::double::F64;
use format::error::DecodeError;
use interfaces::de::decoder::Decoder;
use parsers::varint::read_number;
use primitives::varint::Width;

// The double in the next eight bytes.
fn read_double<D: Decoder>(decoder: &mut D) -> Result<F64, DecodeError>
    ensures did { Reads D.Decoder D.C.Policy D.R.Reader (next_double D.C.Policy.meaning.order) decoder.old result decoder.new }
    ensures range { Passes (λ d. unsigned_range 8 d.bits) result }
{
    let bits = read_number(decoder, Width::Eight)?;
    Ok(F64::from_bits(bits))
}

/// Reads a double.
pub fn decode_double<D: Decoder>(decoder: &mut D) -> Result<F64, DecodeError>
    ensures did { Reads D.Decoder D.C.Policy D.R.Reader (double_reading D.C.Policy.meaning.order) decoder.old result decoder.new }
    ensures range { Passes (λ d. unsigned_range 8 d.bits) result }
{
    decoder.claim_bytes_read(8)?;
    read_double(decoder)
}

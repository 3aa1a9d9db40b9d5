//! The duration: its seconds and then its nanoseconds, which carry into the seconds.
//!
//! That the seconds have 64 bits is a clause and no ghost field, since what a duration's values are is said by its meaning.
ghost use Rattle.format.specs.Integers.{unsigned_range};
ghost use Rattle.interfaces.specs.Calls.{Reads};
ghost use Rattle.interfaces.specs.Decodes.{Passes};
ghost use Rattle.readings.specs.Scalars.{duration_after, duration_reading};

use format::duration::Duration;
use format::error::{DecodeError, IntegerType};
use interfaces::de::decoder::Decoder;
use parsers::varint::decode_integer;

// The duration of these seconds and of the nanoseconds that come next.
fn decode_after<D: Decoder>(decoder: &mut D, secs: u64) -> Result<Duration, DecodeError>
    ensures did { Reads D.Decoder D.C.Policy D.R.Reader (duration_after D.C.Policy.meaning.order D.C.Policy.meaning.encoding secs) decoder.old result decoder.new }
    ensures range { Passes (λ d. unsigned_range 8 d.secs) result }
{
    let nanos = decode_integer(decoder, IntegerType::U32)? as u32;
    // A match, since a closure in `map_err` asks for a longer proof than these lines for the same answer.
    match Duration::new(secs, nanos) {
        Ok(duration) => Ok(duration),
        Err(_) => Err(DecodeError::InvalidDuration { secs, nanos }),
    }
}

/// Reads a duration.
pub fn decode_duration<D: Decoder>(decoder: &mut D) -> Result<Duration, DecodeError>
    ensures did { Reads D.Decoder D.C.Policy D.R.Reader (duration_reading D.C.Policy.meaning.order D.C.Policy.meaning.encoding) decoder.old result decoder.new }
    ensures range { Passes (λ d. unsigned_range 8 d.secs) result }
{
    let secs = decode_integer(decoder, IntegerType::U64)?;
    decode_after(decoder, secs)
}

//! `u8` and `bool`: one byte in both integer encodings.
ghost use Rattle.interfaces.specs.Calls.{Reads};
ghost use Rattle.readings.specs.Scalars.{next_byte, byte_reading, truth_reading};

use format::error::DecodeError;
use interfaces::de::decoder::Decoder;

// The next byte, as a reading of its own.
fn read_byte<D: Decoder>(decoder: &mut D) -> Result<u8, DecodeError>
    ensures { Reads D.Decoder D.C.Policy D.R.Reader next_byte decoder.old result decoder.new }
{
    let mut byte = [0u8; 1];
    decoder.read(&mut byte)?;
    Ok(byte[0])
}

/// Reads a byte.
pub fn decode_byte<D: Decoder>(decoder: &mut D) -> Result<u8, DecodeError>
    ensures { Reads D.Decoder D.C.Policy D.R.Reader byte_reading decoder.old result decoder.new }
{
    decoder.claim_bytes_read(1)?;
    read_byte(decoder)
}

/// Reads a truth value: a byte that is 0 or 1.
pub fn decode_bool<D: Decoder>(decoder: &mut D) -> Result<bool, DecodeError>
    ensures { Reads D.Decoder D.C.Policy D.R.Reader truth_reading decoder.old result decoder.new }
{
    match decode_byte(decoder)? {
        0 => Ok(false),
        1 => Ok(true),
        found => Err(DecodeError::InvalidBooleanValue { found }),
    }
}

//! Byte strings, handed out in place.
ghost use Rattle.format.specs.Standing.{StringStands};
ghost use Rattle.interfaces.specs.Calls.{Reads};
ghost use Rattle.interfaces.specs.Decodes.{lent};
ghost use Rattle.readings.specs.Strings.{bytes_reading, string_reading};
ghost use Rattle.strings.specs.Strings.{Borrows, WrittenString};

use format::error::{DecodeError, IntegerType};
use interfaces::de::decoder::{BorrowDecoder, Decoder};
use parsers::varint::decode_integer;

// The next n bytes, once they are claimed.
fn take_claimed<'de, D: BorrowDecoder<'de>>(
    decoder: &mut D,
    n: u64,
) -> Result<&'de [u8], DecodeError>
    ensures { Reads D.Decoder D.C.Policy D.R.Reader (bytes_reading n) decoder.old (lent result) decoder.new }
{
    decoder.claim_bytes_read(n)?;
    decoder.take_bytes(n as usize)
}

/// Decodes a byte string: its length, and then a part of the input that lives as long as the input does.
pub fn borrow_decode<'de, D: BorrowDecoder<'de>>(decoder: &mut D) -> Result<&'de [u8], DecodeError>
    ensures borrowed { Borrows D.Decoder D.C.Policy D.R.Reader string_reading StringStands decoder.old (lent result) decoder.new }
    ensures written { WrittenString StringStands }
{
    let length = decode_integer(decoder, IntegerType::U64)?;
    take_claimed(decoder, length)
}

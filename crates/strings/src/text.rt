//! Text, handed out in place once it is judged.
ghost use Rattle.format.specs.Standing.{TextStands};
ghost use Rattle.interfaces.specs.Decodes.{lent};
ghost use Rattle.readings.specs.Strings.{text_reading};
ghost use Rattle.strings.specs.Strings.{Borrows, WrittenText};

use crate::bytes;
use format::error::DecodeError;
use interfaces::de::decoder::{BorrowDecoder, Decoder};
use texts::text::check_text;

/// Decodes a text: a byte string that is well formed by RFC 3629, as a part of the input that lives as long as the input does.
pub fn borrow_decode<'de, D: BorrowDecoder<'de>>(decoder: &mut D) -> Result<&'de str, DecodeError>
    ensures borrowed { Borrows D.Decoder D.C.Policy D.R.Reader text_reading TextStands decoder.old (lent result) decoder.new }
    ensures written { WrittenText TextStands }
{
    let bytes = bytes::borrow_decode(decoder)?;
    check_text(bytes)
}

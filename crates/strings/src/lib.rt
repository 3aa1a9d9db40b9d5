//! Byte strings and text: the length, and then the bytes as one piece.
#![tactic(auto)]

pub mod bytes;
pub mod text;

ghost use Rattle.interfaces.specs.Calls.{Offers};
ghost use Rattle.strings.specs.Strings.{string_writing};

use format::error::EncodeError;
use interfaces::enc::encoder::Encoder;
use primitives::varint::{Width, encode_unsigned};

/// Encodes a byte string: its length, and then the bytes as one piece.
pub fn encode_bytes<E: Encoder>(bytes: &[u8], encoder: &mut E) -> Result<(), EncodeError>
    ensures { Offers E.Encoder E.W.Writer (string_writing E.C.Policy.meaning.order E.C.Policy.meaning.encoding bytes.now) encoder.old result encoder.new }
{
    encode_unsigned(encoder, Width::Eight, bytes.len() as u64)?;
    encoder.write(bytes)
}

/// Encodes a text, which goes as the byte string of its UTF-8 form. That it is well formed is in its type.
pub fn encode_str<E: Encoder>(text: &str, encoder: &mut E) -> Result<(), EncodeError>
    ensures { Offers E.Encoder E.W.Writer (string_writing E.C.Policy.meaning.order E.C.Policy.meaning.encoding text.now) encoder.old result encoder.new }
{
    encode_bytes(text.as_bytes(), encoder)
}

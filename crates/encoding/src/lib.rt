//! One value into a writer, and one value to the front of a buffer.
#![tactic(auto)]

ghost use Rattle.elements.specs.Elements.{Encoded};
ghost use Rattle.encoding.specs.Calls.{EncodedInto};

use elements::element::Element;
use format::error::EncodeError;
use interfaces::config::Policy;
use interfaces::enc::encoder::EncoderImpl;
use interfaces::enc::write::Writer;
use writers::slice::SliceWriter;

/// What one encode call did to a buffer.
///
/// The count is no part of the answer, since a refused value leaves bytes too.
#[derive(Clone, Copy, PartialEq, Eq, Debug)]
pub struct Stored {
    /// Whether the value was accepted.
    pub answer: Result<(), EncodeError>,
    /// How many bytes it left at the front: of a refused value, those of the pieces before the first that did not fit.
    pub len: usize,
}

/// Encodes a value into a writer under a policy.
pub fn encode_into_writer<T: Element, W: Writer, C: Policy>(
    value: &T,
    writer: &mut W,
    config: C,
) -> Result<(), EncodeError>
    ensures { Encoded T.Element.meaning C.Policy.meaning W.Writer.meaning writer.old value.now result writer.new }
{
    let mut encoder = EncoderImpl::new(writer, config);
    let answer = value.encode(&mut encoder);
    encoder.into_writer();
    answer
}

/// Encodes a value to the front of a buffer under a policy.
pub fn encode_into_slice<T: Element, C: Policy>(value: &T, buffer: &mut [u8], config: C) -> Stored
    ensures { EncodedInto T.Element.meaning C.Policy.meaning value.now buffer.old result buffer.new }
{
    let mut writer = SliceWriter::new(buffer);
    let answer = encode_into_writer(value, &mut writer, config);
    let len = writer.bytes_written();
    Stored { answer, len }
}

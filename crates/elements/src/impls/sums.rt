//! `Option`, `Result` and `Bound`: a tag, and then the value that the case has.
ghost use Rattle.elements.specs.Compounds.{option, result, bound};

use crate::element::Element;
use crate::impls::pairs::{claim_both, encode_both};
use format::error::EncodeError;
use interfaces::enc::encoder::Encoder;
use std::ops::Bound;

impl<T: Element> Element for Option<T> {
    ghost meaning = { option T.Element.meaning };

    fn encode<E: Encoder>(&self, encoder: &mut E) -> Result<(), EncodeError> {
        match self {
            None => 0u8.encode(encoder),
            Some(value) => encode_both(&1u8, value, encoder),
        }
    }

    fn claim(&self) -> Option<u64> {
        match self {
            None => 0u8.claim(),
            Some(value) => claim_both(&1u8, value),
        }
    }
}

impl<T: Element, U: Element> Element for Result<T, U> {
    ghost meaning = { result T.Element.meaning U.Element.meaning };

    fn encode<E: Encoder>(&self, encoder: &mut E) -> Result<(), EncodeError> {
        match self {
            Ok(value) => encode_both(&0u32, value, encoder),
            Err(error) => encode_both(&1u32, error, encoder),
        }
    }

    fn claim(&self) -> Option<u64> {
        match self {
            Ok(value) => claim_both(&0u32, value),
            Err(error) => claim_both(&1u32, error),
        }
    }
}

impl<T: Element> Element for Bound<T> {
    ghost meaning = { bound T.Element.meaning };

    fn encode<E: Encoder>(&self, encoder: &mut E) -> Result<(), EncodeError> {
        match self {
            Bound::Unbounded => 0u32.encode(encoder),
            Bound::Included(value) => encode_both(&1u32, value, encoder),
            Bound::Excluded(value) => encode_both(&2u32, value, encoder),
        }
    }

    fn claim(&self) -> Option<u64> {
        match self {
            Bound::Unbounded => 0u32.claim(),
            Bound::Included(value) => claim_both(&1u32, value),
            Bound::Excluded(value) => claim_both(&2u32, value),
        }
    }
}

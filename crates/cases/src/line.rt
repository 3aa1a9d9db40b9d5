//! One line: what encoding a value leaves, and its claim.
ghost use Rattle.std.specs.Prelude.{◌≡◌};
ghost use Rattle.cases.specs.Lines.{line_of};

use elements::element::Element;
use encoding::encode_into_slice;
use interfaces::config::Policy;

/// The bytes that an encode left at the front of sixteen zeros, how many they are, and the value's claim.
// An array with its length, since nothing is allocated, and since the theorem compares lines whole.
#[derive(Clone, Copy)]
pub struct Line {
    /// The bytes, and zeros behind them.
    pub bytes: [u8; 16],
    /// How many of them were written.
    pub len: usize,
    /// The claim, or none where it passes 2^64 - 1.
    pub claim: Option<u64>,
}

/// Encodes a value into sixteen bytes under a policy. A writing that does not fit leaves the pieces before the first that did not.
pub fn encode_line<T: Element, C: Policy>(value: &T, config: C) -> Line
    ensures { result ≡ line_of T.Element.meaning C.Policy.meaning value.now }
{
    let mut bytes = [0u8; 16];
    let stored = encode_into_slice(value, &mut bytes, config);
    let claim = value.claim();
    Line {
        bytes,
        len: stored.len,
        claim,
    }
}

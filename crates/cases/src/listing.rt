//! The fourteen cases of the listing, and the theorem about them.
ghost use Rattle.std.specs.Prelude.{◌≡◌, map, Ok};
ghost use Rattle.cases.specs.Listing.{TheDefinitionsGiveTheListing, listed, answered};

use crate::line::{Line, encode_line};
use format::double::F64;
use format::duration::Duration;
use format::error::ValueError;
use format::scalar::Char;
use interfaces::config::configuration::{BIG_FIXED, BIG_VARIABLE, LITTLE_FIXED, LITTLE_VARIABLE};

/// The bit pattern of the double 1.
const ONE: u64 = 0x3ff0_0000_0000_0000;

/// The fourteen lines.
pub fn fourteen_lines() -> Result<[Line; 14], ValueError>
    ensures definitions { TheDefinitionsGiveTheListing }
    ensures lines { result ≡ Ok (map answered listed) }
{
    let euro = Char::new(8364)?;
    let duration = Duration::new(1, 5)?;
    Ok([
        encode_line(&250u64, LITTLE_VARIABLE),
        encode_line(&251u64, LITTLE_VARIABLE),
        encode_line(&251u64, BIG_VARIABLE),
        encode_line(&65535u64, LITTLE_VARIABLE),
        encode_line(&65536u64, LITTLE_VARIABLE),
        encode_line(&4294967296u64, LITTLE_VARIABLE),
        encode_line(&7u32, BIG_FIXED),
        encode_line(&-1i32, LITTLE_VARIABLE),
        encode_line(&-2147483648i32, LITTLE_VARIABLE),
        encode_line(&euro, LITTLE_VARIABLE),
        encode_line(&Some(7u16), LITTLE_VARIABLE),
        encode_line(&Result::<u8, bool>::Err(true), LITTLE_FIXED),
        encode_line(&duration, LITTLE_VARIABLE),
        encode_line(&F64::from_bits(ONE), LITTLE_VARIABLE),
    ])
}

//! What a row asks, and the tests.
use Through::*;
use Under::*;
use decodes::decode::*;
use decodes::impls::bytes::*;
use decodes::impls::floats::*;
use decodes::impls::pairs::*;
use decodes::impls::signed::*;
use decodes::impls::sums::*;
use decodes::impls::text::*;
use decodes::impls::time::*;
use decodes::impls::unsigned::*;
use elements::element::*;
use format::double::*;
use format::duration::*;
use format::error::DecodeError::*;
use format::error::*;
use format::scalar::*;
use interfaces::config::Policy;
use interfaces::config::configuration::*;
use interfaces::de::decoder::*;
use interfaces::de::read::*;
use readers::ring::methods::*;
use readers::ring::*;
use readers::slice::methods::*;
use readers::slice::*;
use readers::unseen::*;
use std::fmt::Debug;
use std::ops::Bound;
use std::process::Abort;
use std::test::*;

/// Reads the rows of a table, each on a line and with `;` at its end, whose values are made by a function of what stands in the row.
macro_rules! table {
    ($rt:expr; $make:expr; $($($cell:expr),*;)*) => {
        rows($rt, &[$(($($cell),*)),*], $make)
    };
}

/// A call with the policy of that name. A policy is a type, so the call is made in an arm for each.
macro_rules! under {
    ($under:expr; $config:ident => $call:expr) => {
        match $under {
            LV => {
                let $config = LITTLE_VARIABLE;
                $call
            }
            LF => {
                let $config = LITTLE_FIXED;
                $call
            }
            BV => {
                let $config = BIG_VARIABLE;
                $call
            }
            BF => {
                let $config = BIG_FIXED;
                $call
            }
        }
    };
}

mod answers;
mod rules;

/// How many bytes a row may have.
const SIZE: usize = 64;

/// The policy of a row, by its short name: little-endian or big-endian, with variable or fixed integers.
#[derive(Clone, Copy)]
enum Under {
    LV,
    LF,
    BV,
    BF,
}

/// The reader of a row.
#[derive(Clone, Copy)]
enum Through {
    /// The slice reader.
    Whole,
    /// A ring whose end comes after so many bytes, or not at all where there are none before it or none behind it.
    Split(usize),
    /// A reader that hides what waits.
    Hidden,
}

/// A row of a table: the policy, the bytes that wait, the reader, and then the answer and how many bytes are left.
type Row<S> = (Under, &'static [u8], Through, Result<S, DecodeError>, usize);

/// The rows of a table.
fn rows<S: Copy, T: Decode + PartialEq + Debug + Drop, F>(
    rt: &impl Abort,
    table: &[Row<S>],
    make: F,
) -> Result<(), Fail>
where
    F: Fn(S) -> Result<T, ValueError>,
    requires { F.IsAlwaysCallable make }
{
    for (under, bytes, through, answer, left) in table {
        let want = match answer {
            Ok(parts) => Ok(make(*parts)?),
            Err(fault) => Err(*fault),
        };
        under!(*under; config => row(rt, bytes, *through, config, &want, *left))?;
    }
    Ok(())
}

/// A row: through its own reader, and through all others where the answer may not depend on the reader.
fn row<T: Decode + PartialEq + Debug + Drop, C: Policy>(
    rt: &impl Abort,
    bytes: &[u8],
    through: Through,
    config: C,
    want: &Result<T, DecodeError>,
    left: usize,
) -> Result<(), Fail> {
    read_through(rt, bytes, through, config, want, left)?;
    if let Err(InvalidIntegerType { .. }) = want {
        return Ok(());
    }
    read_through(rt, bytes, Whole, config, want, left)?;
    read_through(rt, bytes, Hidden, config, want, left)?;
    for n in 0..=bytes.len() {
        read_through(rt, bytes, Split(n), config, want, left)?;
    }
    Ok(())
}

/// Decodes a value through one reader, and compares.
fn read_through<T: Decode + PartialEq + Debug + Drop, C: Policy>(
    rt: &impl Abort,
    bytes: &[u8],
    through: Through,
    config: C,
    want: &Result<T, DecodeError>,
    left: usize,
) -> Result<(), Fail> {
    match through {
        Whole => compare(rt, bytes, SliceReader::new(bytes), config, want, left),
        Hidden => compare(
            rt,
            bytes,
            Unseen::new(SliceReader::new(bytes)),
            config,
            want,
            left,
        ),
        Split(n) => {
            let mut buffer = [0u8; SIZE];
            let ring = ring_of(rt, bytes, n, &mut buffer)?;
            compare(rt, bytes, ring, config, want, left)
        }
    }
}

/// A ring over which the bytes wait, the first n of them before the buffer's end.
fn ring_of<'a>(
    rt: &impl Abort,
    bytes: &[u8],
    n: usize,
    buffer: &'a mut [u8; SIZE],
) -> Result<RingReader<'a>, Fail> {
    let len = bytes.len();
    assert!(rt; len <= SIZE);
    let n = n.min(len);
    let (front, back) = bytes.split_at(n);
    buffer[..len - n].copy_from_slice(back);
    buffer[len - n..len].copy_from_slice(front);
    let mut ring = RingReader::new(&buffer[..len]);
    let start = if n == 0 { 0 } else { len - n };
    ring.fill(start, len)?;
    Ok(ring)
}

/// Decodes a value through a reader over these bytes: it has to give the answer, and to leave the last `left` bytes.
fn compare<T: Decode + PartialEq + Debug + Drop, R: Reader + Drop, C: Policy>(
    rt: &impl Abort,
    bytes: &[u8],
    reader: R,
    config: C,
    want: &Result<T, DecodeError>,
    left: usize,
) -> Result<(), Fail> {
    let mut decoder = DecoderImpl::new(reader, config);
    let answer = T::decode(&mut decoder);
    assert_eq!(rt; &answer, want);
    assert_eq!(rt; decoder.claimed(), 0);
    let mut reader = decoder.into_reader();
    assert!(rt; left <= bytes.len());
    assert!(rt; left <= SIZE);
    let mut rest = [0u8; SIZE];
    reader.read(&mut rest[..left])?;
    assert_eq!(rt; &rest[..left], &bytes[bytes.len() - left..]);
    assert_eq!(rt;
        reader.read(&mut [0u8; 1]),
        Err(UnexpectedEnd { additional: 1 })
    );
    Ok(())
}

//! Reads a few byte strings through each kind of reader, and prints what each read gave.
//!
//! A case is a policy, a type and some bytes. Below it stands a line for each reader: the slice, a ring from every start, and a reader that hides what waits; with the
//! value or the refusal, how many bytes are claimed and how many are left. All agree, but where the tag of an integer is too wide for its type.
#![tactic(auto)]

use decodes::decode::Decode;
use elements::element::Element;
use format::double::F64;
use format::duration::Duration;
use format::error::DecodeError;
use format::scalar::Char;
use interfaces::config::Policy;
use interfaces::config::configuration::{
    BIG_FIXED, Configuration, LITTLE_FIXED, LITTLE_VARIABLE, Limit, LittleEndian, Varint,
};
use interfaces::de::decoder::DecoderImpl;
use interfaces::de::read::Reader;
use readers::ring::RingReader;
use readers::slice::SliceReader;
use readers::unseen::Unseen;
use standing::{Standing, decode_standing};
use std::fmt::{Debug, Display};
use std::ops::Bound;
use strings::{bytes, text};

/// How many bytes a case may have.
const ROOM: usize = 16;

/// Little-endian, variable integers, and a limit of so many bytes.
fn limited<const N: u64>() -> Configuration<LittleEndian, Varint, Limit<N>> {
    Configuration {
        endian: LittleEndian,
        int_encoding: Varint,
        limit: Limit,
    }
}

/// Decodes a value from a reader: the answer, how many bytes are claimed, and the reader.
fn read<T: Standing, R: Reader, C: Policy>(
    reader: R,
    config: C,
) -> (Result<T, DecodeError>, u64, R) {
    let mut decoder = DecoderImpl::new(reader, config);
    let answer = decode_standing(&mut decoder);
    let claimed = decoder.claimed();
    (answer, claimed, decoder.into_reader())
}

/// Prints what a read through one reader gave.
fn told<T: Debug>(
    rt: &impl Print,
    reader: impl Display + Drop,
    answer: &Result<T, DecodeError>,
    claimed: u64,
    left: usize,
) -> anyhow::Result<()> {
    match answer {
        Ok(value) => println!(rt; "  {reader}: {value:?}, claimed {claimed}, left {left}")?,
        Err(e) => println!(rt; "  {reader}: {e}, claimed {claimed}, left {left}")?,
    }
    Ok(())
}

/// Prints the head of a case.
fn head(rt: &impl Print, label: &str, bytes: &[u8]) -> anyhow::Result<()> {
    print!(rt; "{label} ")?;
    for b in bytes {
        print!(rt; "{b:02x}")?;
    }
    println!(rt; "")?;
    Ok(())
}

/// The bytes laid into the front of a buffer as a ring has them that begins at `start`.
fn lay(bytes: &[u8], start: usize, buffer: &mut [u8]) {
    let (end, front) = bytes.split_at(bytes.len().saturating_sub(start));
    for (to, from) in buffer.iter_mut().skip(start).zip(end) {
        *to = *from;
    }
    for (to, from) in buffer.iter_mut().zip(front) {
        *to = *from;
    }
}

/// One case, through each reader.
fn case<T: Standing + Debug + Drop, C: Policy>(
    rt: &impl Print,
    label: &str,
    bytes: &[u8],
    config: C,
) -> anyhow::Result<()> {
    head(rt, label, bytes)?;
    let (answer, claimed, reader) = read::<T, _, C>(SliceReader::new(bytes), config);
    told(rt, "slice", &answer, claimed, reader.remaining())?;
    for start in 0..bytes.len().min(ROOM) {
        let mut buffer = [0; ROOM];
        lay(bytes, start, &mut buffer);
        let mut ring = RingReader::new(&buffer[..bytes.len().min(ROOM)]);
        ring.fill(start, bytes.len())?;
        let (answer, claimed, reader) = read::<T, _, C>(ring, config);
        told(
            rt,
            format_args!("ring from {start}"),
            &answer,
            claimed,
            reader.remaining(),
        )?;
    }
    let (answer, claimed, reader) = read::<T, _, C>(Unseen::new(SliceReader::new(bytes)), config);
    told(
        rt,
        "hidden",
        &answer,
        claimed,
        reader.into_inner().remaining(),
    )
}

/// Integers: in one byte and in more, a last byte, a limit, and tags that are too wide.
fn integers(rt: &impl Print) -> anyhow::Result<()> {
    case::<u64, _>(rt, "LV u64", &[0xfb, 0xfb, 0x00], LITTLE_VARIABLE)?;
    case::<u64, _>(rt, "LV u64", &[0x07], LITTLE_VARIABLE)?;
    case::<u64, _>(rt, "LV limit 8 u64", &[0x07, 0x08], limited::<8>())?;
    case::<u64, _>(rt, "LV limit 7 u64", &[0x07, 0x08], limited::<7>())?;
    case::<u16, _>(rt, "LV u16", &[0xfb, 0x01], LITTLE_VARIABLE)?;
    case::<u32, _>(rt, "BF u32", &[0x00, 0x00, 0x00, 0x07], BIG_FIXED)?;
    case::<i64, _>(
        rt,
        "LV i64",
        &[0xff, 1, 2, 3, 4, 5, 6, 7, 8],
        LITTLE_VARIABLE,
    )?;
    case::<u64, _>(
        rt,
        "LV u64",
        &[0xfe, 1, 2, 3, 4, 5, 6, 7, 8],
        LITTLE_VARIABLE,
    )
}

/// Values of the other types.
fn values(rt: &impl Print) -> anyhow::Result<()> {
    case::<Char, _>(rt, "LV char", &[0xe2, 0x82, 0xac], LITTLE_VARIABLE)?;
    case::<Char, _>(rt, "LV char", &[0xed, 0xa0, 0x80], LITTLE_VARIABLE)?;
    case::<Duration, _>(
        rt,
        "LV Duration",
        &[0xfa, 0xfc, 0xff, 0xff, 0xff, 0xff],
        LITTLE_VARIABLE,
    )?;
    case::<Option<u16>, _>(
        rt,
        "LV Option<u16>",
        &[0x01, 0xfb, 0xfb, 0x00],
        LITTLE_VARIABLE,
    )?;
    case::<Option<u16>, _>(rt, "LV Option<u16>", &[0x02], LITTLE_VARIABLE)?;
    case::<Result<u8, bool>, _>(
        rt,
        "LF Result<u8,bool>",
        &[0x01, 0x00, 0x00, 0x00, 0x02],
        LITTLE_FIXED,
    )?;
    case::<Bound<u16>, _>(rt, "LV Bound<u16>", &[0x02, 0x07], LITTLE_VARIABLE)?;
    case::<(bool, F64), _>(
        rt,
        "LV (bool,f64)",
        &[0x01, 0x00, 0x00, 0x00, 0x00, 0x00, 0x00, 0xf0, 0x3f],
        LITTLE_VARIABLE,
    )
}

/// Byte strings and text, which are handed out in place from a slice.
fn parts(rt: &impl Print) -> anyhow::Result<()> {
    let seal = [0x03, 0x01, 0x02, 0x03];
    head(rt, "LV bytes", &seal)?;
    let mut decoder = DecoderImpl::new(SliceReader::new(&seal), LITTLE_VARIABLE);
    let answer = bytes::borrow_decode(&mut decoder);
    let claimed = decoder.claimed();
    told(
        rt,
        "slice",
        &answer,
        claimed,
        decoder.into_reader().remaining(),
    )?;
    for label in [[0x03, 0xce, 0xa9, 0x41], [0x02, 0x61, 0xe2, 0x41]] {
        head(rt, "LV text", &label)?;
        let mut decoder = DecoderImpl::new(SliceReader::new(&label), LITTLE_VARIABLE);
        let answer = text::borrow_decode(&mut decoder);
        let claimed = decoder.claimed();
        told(
            rt,
            "slice",
            &answer,
            claimed,
            decoder.into_reader().remaining(),
        )?;
    }
    Ok(())
}

fn main(rt: HostRuntime) -> anyhow::Result<()> {
    integers(&rt)?;
    values(&rt)?;
    parts(&rt)
}

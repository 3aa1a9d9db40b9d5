//! The format's own rules at their boundaries.
//!
//! A writing stands here byte by byte, with the places where its pieces end. It is tried in each room from none to one byte more than it takes: a room that
//! is too small refuses the value, and holds the pieces before the first that did not fit.
use crate::tests::*;

mod claims;
mod compounds;
mod filled;
mod making;
mod rooms;
mod signed;
mod unsigned;
mod values;

/// A row of a table: a value, the policy, the bytes of its writing, and where each of its pieces ends.
type Pieces<T> = (T, Under, &'static [u8], &'static [usize]);

/// Encodes a value under a policy into each room up to one byte more than its writing has.
fn every_room<T: Element, C: Policy>(
    rt: &impl Abort,
    value: &T,
    config: C,
    bytes: &[u8],
    ends: &[usize],
) -> Result<(), Fail> {
    assert!(rt; bytes.len() < SIZE);
    for room in 0..bytes.len() + 2 {
        let len = fitting(ends, room);
        assert!(rt; len <= bytes.len());
        let answer = if room < bytes.len() {
            Err(UnexpectedEnd)
        } else {
            Ok(())
        };
        row(rt, value, config, room, answer, &bytes[..len])?;
    }
    counted(rt, value, config, bytes.len())
}

/// How many bytes the pieces have that fit the room.
fn fitting(ends: &[usize], room: usize) -> usize {
    ends.iter()
        .filter(|end| **end <= room)
        .last()
        .map_or(0, |end| *end)
}

/// A size writer and a page writer take a value and count this many bytes, and where integers are fixed a decoder claims as many.
fn counted<T: Element, C: Policy>(
    rt: &impl Abort,
    value: &T,
    config: C,
    len: usize,
) -> Result<(), Fail> {
    if C::integer_encoding() == IntEncoding::Fixed {
        assert_eq!(rt; value.claim(), Some(len as u64));
    }
    let mut size = SizeWriter::new();
    encode_into_writer(value, &mut size, config)?;
    assert_eq!(rt; size.bytes_written(), len);
    let mut page = PageWriter::new();
    encode_into_writer(value, &mut page, config)?;
    assert_eq!(rt; page.bytes_written(), len);
    Ok(())
}

/// The writing of a value under the policy of that name.
fn writing<T: Element>(
    rt: &impl Abort,
    value: &T,
    under: Under,
    bytes: &[u8],
    ends: &[usize],
) -> Result<(), Fail> {
    under!(under; config => every_room(rt, value, config, bytes, ends))
}

/// The writings of a table.
fn writings<T: Element + Copy>(rt: &impl Abort, table: &[Pieces<T>]) -> Result<(), Fail> {
    writings_made(rt, table, Ok)
}

/// The writings of a table whose values are made of what stands there.
fn writings_made<S: Copy, T: Element + Drop, F>(
    rt: &impl Abort,
    table: &[Pieces<S>],
    make: F,
) -> Result<(), Fail>
where
    F: Fn(S) -> Result<T, ValueError>,
    requires { F.IsAlwaysCallable make }
{
    for (parts, under, bytes, ends) in table {
        writing(rt, &make(*parts)?, *under, bytes, ends)?;
    }
    Ok(())
}

/// Integers in the little byte order: variable, which is one byte or a tag and then the number, and fixed.
fn little<T: Element>(
    rt: &impl Abort,
    table: &[(T, &'static [u8], &'static [u8])],
) -> Result<(), Fail> {
    for (value, variable, fixed) in table {
        writing(rt, value, LV, variable, &[1, variable.len()])?;
        writing(rt, value, LF, fixed, &[fixed.len()])?;
    }
    Ok(())
}

/// A value whose writing is one piece and the same under each policy.
fn one_piece<T: Element>(rt: &impl Abort, value: &T, bytes: &[u8]) -> Result<(), Fail> {
    for under in [LV, LF, BV, BF] {
        writing(rt, value, under, bytes, &[bytes.len()])?;
    }
    Ok(())
}

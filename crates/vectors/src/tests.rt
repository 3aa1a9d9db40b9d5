//! What a row asks, and the tests: the answers of bincode, and the format's own rules.
use Under::*;
use elements::element::Element;
use elements::impls::bytes::*;
use elements::impls::floats::*;
use elements::impls::pairs::*;
use elements::impls::signed::*;
use elements::impls::sums::*;
use elements::impls::text::*;
use elements::impls::time::*;
use elements::impls::unsigned::*;
use encoding::*;
use format::config::*;
use format::double::*;
use format::duration::*;
use format::error::EncodeError::UnexpectedEnd;
use format::error::*;
use format::scalar::*;
use interfaces::config::Policy;
use interfaces::config::configuration::*;
use interfaces::enc::encoder::*;
use interfaces::enc::write::*;
use std::ops::Bound;
use std::process::Abort;
use std::test::*;
use strings::*;
use writers::page::methods::*;
use writers::page::*;
use writers::size::*;
use writers::slice::*;

/// Runs a function on a table: behind its name, and what makes the values if they are not in the rows, stand the rows, each on a line and with `;` at its end.
macro_rules! table {
    ($rt:expr; $run:path $(, $make:expr)?; $($($cell:expr),*;)*) => {
        $run($rt, &[$(($($cell),*)),*] $(, $make)?)
    };
}

/// Calls a function for each row, with what stands in it.
macro_rules! each {
    ($rt:expr; $run:path; $($($cell:expr),*;)*) => {{
        $($run($rt, $($cell),*)?;)*
        Ok::<(), Fail>(())
    }};
}

/// A call with the policy of that name. A policy is a type, so the call is made in an arm for each.
macro_rules! under {
    ($under:expr; $config:ident => $call:expr) => {
        match $under {
            LV => {
                let $config = LITTLE_VARIABLE;
                $call
            }
            LF => {
                let $config = LITTLE_FIXED;
                $call
            }
            BV => {
                let $config = BIG_VARIABLE;
                $call
            }
            BF => {
                let $config = BIG_FIXED;
                $call
            }
        }
    };
}

mod answers;
mod boundaries;

/// How many bytes the buffer of a row has.
const SIZE: usize = 64;

/// What each of them is before the call.
const FILL: u8 = 0xa5;

/// The answer of an encode call.
type Answer = Result<(), EncodeError>;

/// The policy of a row, by its short name: little-endian or big-endian, with variable or fixed integers.
#[derive(Clone, Copy)]
enum Under {
    LV,
    LF,
    BV,
    BF,
}

/// A row of a table: a value, the policy, the room, and then the answer and the bytes.
type Entry<T> = (T, Under, usize, Answer, &'static [u8]);

/// Encodes a value under a policy into the first `room` bytes of a buffer.
fn row<T: Element, C: Policy>(
    rt: &impl Abort,
    value: &T,
    config: C,
    room: usize,
    answer: Answer,
    bytes: &[u8],
) -> Result<(), Fail> {
    stored(rt, room, answer, bytes, |buffer| {
        encode_into_slice(value, buffer, config)
    })
}

/// A row under the policy of that name.
fn row_under<T: Element>(
    rt: &impl Abort,
    value: &T,
    under: Under,
    room: usize,
    answer: Answer,
    bytes: &[u8],
) -> Result<(), Fail> {
    under!(under; config => row(rt, value, config, room, answer, bytes))
}

/// The rows of a table.
fn rows<T: Element + Copy>(rt: &impl Abort, table: &[Entry<T>]) -> Result<(), Fail> {
    rows_made(rt, table, Ok)
}

/// The rows of a table whose values are made of what stands there.
fn rows_made<S: Copy, T: Element + Drop, F>(
    rt: &impl Abort,
    table: &[Entry<S>],
    make: F,
) -> Result<(), Fail>
where
    F: Fn(S) -> Result<T, ValueError>,
    requires { F.IsAlwaysCallable make }
{
    for (parts, under, room, answer, bytes) in table {
        row_under(rt, &make(*parts)?, *under, *room, *answer, bytes)?;
    }
    Ok(())
}

/// A row of a byte string.
fn bytes_row<C: Policy>(
    rt: &impl Abort,
    value: &[u8],
    config: C,
    room: usize,
    answer: Answer,
    bytes: &[u8],
) -> Result<(), Fail> {
    stored(rt, room, answer, bytes, |buffer| {
        string_stored(buffer, config, |encoder| encode_bytes(value, encoder))
    })
}

/// A row of a text.
fn text_row<C: Policy>(
    rt: &impl Abort,
    value: &str,
    config: C,
    room: usize,
    answer: Answer,
    bytes: &[u8],
) -> Result<(), Fail> {
    stored(rt, room, answer, bytes, |buffer| {
        string_stored(buffer, config, |encoder| encode_str(value, encoder))
    })
}

/// Encodes to the front of a buffer, as the closure does.
fn string_stored<'a, C: Policy, F>(buffer: &'a mut [u8], config: C, encode: F) -> Stored
where
    F: FnOnce(&mut EncoderImpl<SliceWriter<'a>, C>) -> Answer,
    requires { F.IsAlwaysCallable encode }
{
    let (answer, writer) = encoded(SliceWriter::new(buffer), config, encode);
    let len = writer.bytes_written();
    Stored { answer, len }
}

/// Encodes into a writer, as the closure does, and gives the writer back.
fn encoded<W: Writer, C: Policy, F>(writer: W, config: C, encode: F) -> (Answer, W)
where
    F: FnOnce(&mut EncoderImpl<W, C>) -> Answer,
    requires { F.IsAlwaysCallable encode }
{
    let mut encoder = EncoderImpl::new(writer, config);
    let answer = encode(&mut encoder);
    (answer, encoder.into_writer())
}

/// Stores into the first `room` bytes of a buffer: that has to give the answer, and to leave the bytes at the front and the rest as it was.
fn stored<F>(
    rt: &impl Abort,
    room: usize,
    answer: Answer,
    bytes: &[u8],
    store: F,
) -> Result<(), Fail>
where
    F: FnOnce(&mut [u8]) -> Stored,
    requires { F.IsAlwaysCallable store }
{
    assert!(rt; room <= SIZE);
    let mut buffer = [FILL; SIZE];
    let len = bytes.len();
    assert_eq!(rt;
        store(&mut buffer[..room]),
        Stored { answer, len },
        "in a room of {room}"
    );
    assert!(rt; len <= SIZE);
    assert_eq!(rt; &buffer[..len], bytes, "in a room of {room}");
    for b in buffer.iter().skip(len) {
        assert_eq!(rt; *b, FILL, "in a room of {room}");
    }
    Ok(())
}

/// The character with this code, in a short word for the rows.
fn scalar(code: u32) -> Result<Char, ValueError> {
    Char::new(code)
}

/// The duration of so many seconds and nanoseconds, in a short word for the rows.
fn span(secs: u64, nanos: u32) -> Result<Duration, ValueError> {
    Duration::new(secs, nanos)
}

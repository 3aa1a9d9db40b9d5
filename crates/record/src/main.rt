//! Writes one board's record into a buffer until it is full, and prints what each call did.
//!
//! Each line has the field, its type and its value, the call's answer, the bytes that the call left, and how many are free after it.
#![tactic(auto)]

use elements::element::Element;
use encoding::{Stored, encode_into_slice};
use format::double::F64;
use format::duration::Duration;
use format::error::EncodeError;
use format::scalar::Char;
use interfaces::config::configuration::{LITTLE_VARIABLE, LV};
use interfaces::enc::encoder::EncoderImpl;
use std::ops::Bound;
use strings::{encode_bytes, encode_str};
use writers::slice::SliceWriter;

/// How many bytes the record may have.
const ROOM: usize = 75;

/// What of the buffer is still free.
#[derive(Drop)]
struct Board<'a> {
    free: &'a mut [u8],
}

impl Board<'_> {
    /// Encodes a value behind what is written.
    // By the call whose contract pins the answer, the count and the buffer. That they are printed as they are is not proved.
    fn put<T: Element>(&mut self, rt: &impl Print, label: &str, value: &T) -> anyhow::Result<()> {
        let stored = encode_into_slice(value, self.free, LITTLE_VARIABLE);
        self.told(rt, label, stored)
    }

    /// Encodes behind what is written, as the closure does.
    fn put_by<F>(&mut self, rt: &impl Print, label: &str, encode: F) -> anyhow::Result<()>
    where
        F: FnOnce(&mut EncoderImpl<SliceWriter<'_>, LV>) -> Result<(), EncodeError>,
        requires { F.IsAlwaysCallable encode }
    {
        let mut encoder = EncoderImpl::new(SliceWriter::new(&mut *self.free), LITTLE_VARIABLE);
        let answer = encode(&mut encoder);
        let len = encoder.into_writer().bytes_written();
        self.told(rt, label, Stored { answer, len })
    }

    /// Prints what a call did, and lets go of the bytes that it left.
    fn told(&mut self, rt: &impl Print, label: &str, stored: Stored) -> anyhow::Result<()> {
        match stored.answer {
            Ok(()) => print!(rt; "{label}: ok ")?,
            Err(e) => print!(rt; "{label}: {e} ")?,
        }
        if let Some(left) = self.free.split_off_mut(..stored.len) {
            for b in left.iter() {
                print!(rt; "{b:02x}")?;
            }
        }
        println!(rt; " free={}", self.free.len())?;
        Ok(())
    }
}

/// The numbers of the record.
fn put_numbers(board: &mut Board, rt: &impl Print) -> anyhow::Result<()> {
    board.put(rt, "board u32 70001", &70001u32)?;
    board.put(rt, "passed bool true", &true)?;
    board.put(rt, "bench u8 3", &3u8)?;
    board.put(rt, "cells u16 288", &288u16)?;
    board.put(rt, "serial u64 8589934592", &8589934592u64)?;
    board.put(rt, "readings usize 900", &900usize)?;
    board.put(rt, "offset i16 -12", &-12i16)?;
    board.put(rt, "drift i32 -70000", &-70000i32)?;
    board.put(rt, "energy i64 250", &250i64)?;
    board.put(
        rt,
        "volts f64 400d333333333333",
        &F64::from_bits(0x400d_3333_3333_3333),
    )
}

/// The values of the other types.
fn put_others(board: &mut Board, rt: &impl Print) -> anyhow::Result<()> {
    board.put(rt, "unit char 937", &Char::try_from(937)?)?;
    board.put(rt, "soak Duration 3600s250n", &Duration::new(3600, 250)?)?;
    board.put(rt, "limit Option<u16> Some(4200)", &Some(4200u16))?;
    board.put(
        rt,
        "verdict Result<u8,bool> Ok(7)",
        &Result::<u8, bool>::Ok(7),
    )?;
    board.put(
        rt,
        "upper Bound<u32> Excluded(65536)",
        &Bound::Excluded(65536u32),
    )?;
    board.put(rt, "range (u32,i16) (5,-1)", &(5u32, -1i16))?;
    board.put_by(
        rt,
        "seal bytes x0102030405",
        |encoder| encode_bytes(&[1, 2, 3, 4, 5], encoder),
    )?;
    board.put_by(
        rt,
        "label text A-17 Ω",
        |encoder| encode_str("A-17 Ω", encoder),
    )?;
    board.put(rt, "last u64 251", &251u64)?;
    board.put(rt, "end u8 255", &255u8)?;
    board.put(rt, "more bool false", &false)
}

fn main(rt: HostRuntime) -> anyhow::Result<()> {
    let mut buffer = [0; ROOM];
    let mut board = Board { free: &mut buffer };
    put_numbers(&mut board, &rt)?;
    put_others(&mut board, &rt)
}

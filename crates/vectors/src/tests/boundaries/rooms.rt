//! A buffer with no room at all, and strings in the room that they take and in one byte less.
use crate::tests::boundaries::*;

/// An empty buffer refuses a value under each policy.
fn no_room<T: Element>(rt: &impl Abort, value: &T) -> Result<(), Fail> {
    for under in [LV, LF, BV, BF] {
        row_under(rt, value, under, 0, Err(UnexpectedEnd), &[])?;
    }
    Ok(())
}

#[test]
fn empty_buffer(rt: HostRuntime) -> Result<(), Fail> {
    no_room(&rt, &false)?;
    no_room(&rt, &0u8)?;
    no_room(&rt, &0u16)?;
    no_room(&rt, &0u32)?;
    no_room(&rt, &0u64)?;
    no_room(&rt, &0usize)?;
    no_room(&rt, &0i16)?;
    no_room(&rt, &0i32)?;
    no_room(&rt, &0i64)?;
    no_room(&rt, &F64::from_bits(0))?;
    no_room(&rt, &scalar(0)?)?;
    no_room(&rt, &span(0, 0)?)?;
    no_room(&rt, &None::<u8>)?;
    no_room(&rt, &Result::<u8, u8>::Ok(0))?;
    no_room(&rt, &Bound::<u8>::Unbounded)?;
    no_room(&rt, &(0u8, 0u8))
}

#[test]
fn strings(rt: HostRuntime) -> Result<(), Fail> {
    each! { &rt; bytes_row;
        &[], LITTLE_VARIABLE, 1, Ok(()), &[0x00];
        &[], LITTLE_VARIABLE, 0, Err(UnexpectedEnd), &[];
        &[], LITTLE_FIXED, 8, Ok(()), &[0x00, 0x00, 0x00, 0x00, 0x00, 0x00, 0x00, 0x00];
        &[], LITTLE_FIXED, 7, Err(UnexpectedEnd), &[];
        &[0xff, 0x00], LITTLE_VARIABLE, 3, Ok(()), &[0x02, 0xff, 0x00];
        &[0xff, 0x00], LITTLE_VARIABLE, 2, Err(UnexpectedEnd), &[0x02];
    }?;
    each! { &rt; text_row;
        "", BIG_FIXED, 8, Ok(()), &[0x00, 0x00, 0x00, 0x00, 0x00, 0x00, 0x00, 0x00];
        "", BIG_FIXED, 7, Err(UnexpectedEnd), &[];
        "€", BIG_FIXED, 11, Ok(()), &[0x00, 0x00, 0x00, 0x00, 0x00, 0x00, 0x00, 0x03, 0xe2, 0x82, 0xac];
        "€", BIG_FIXED, 10, Err(UnexpectedEnd), &[0x00, 0x00, 0x00, 0x00, 0x00, 0x00, 0x00, 0x03];
    }
}

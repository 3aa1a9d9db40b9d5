//! What a decoder claims for a value: a number of bytes that no policy changes.
use crate::tests::boundaries::*;
use std::process::Abort;

/// The claim of a value.
fn claims<T: Element>(rt: &impl Abort, value: &T, bytes: u64) -> Result<(), Fail> {
    assert_eq!(rt; value.claim(), Some(bytes));
    Ok(())
}

#[test]
fn values(rt: HostRuntime) -> Result<(), Fail> {
    claims(&rt, &7u64, 8)?;
    claims(&rt, &F64::from_bits(7), 8)?;
    claims(&rt, &scalar(8364)?, 3)?;
    claims(&rt, &span(1, 5)?, 12)?;
    claims(&rt, &Some(7u16), 3)?;
    claims(&rt, &Result::<u8, u64>::Err(7), 12)?;
    claims(&rt, &Bound::<u64>::Unbounded, 4)?;
    claims(&rt, &(7u8, 7u16), 3)
}

#[test]
fn nested(rt: HostRuntime) -> Result<(), Fail> {
    claims(&rt, &Some(Some(7u16)), 4)?;
    claims(&rt, &Result::<Option<u16>, i64>::Ok(Some(7)), 7)?;
    claims(&rt, &(true, (scalar(8364)?, F64::from_bits(7))), 12)?;
    claims(
        &rt,
        &Bound::Included((span(1, 5)?, Some(Bound::<u8>::Unbounded))),
        21,
    )
}

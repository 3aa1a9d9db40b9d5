//! Which characters and durations are made, and which are refused.
use crate::tests::boundaries::*;

#[test]
fn characters(rt: HostRuntime) -> Result<(), Fail> {
    for code in [0, 0xd7ff, 0xe000, 0x10_ffff] {
        assert_eq!(rt; scalar(code)?.code(), code);
    }
    for code in [0xd800, 0xdfff, 0x11_0000, u32::MAX] {
        assert_eq!(rt; Char::new(code), Err(ValueError::NotScalar));
    }
    Ok(())
}

/// The seconds and the nanoseconds of a duration that is made, for those that are asked for.
fn parts(secs: u64, nanos: u32) -> Result<(u64, u32), Fail> {
    let duration = span(secs, nanos)?;
    Ok((duration.as_secs(), duration.subsec_nanos()))
}

#[test]
fn durations(rt: HostRuntime) -> Result<(), Fail> {
    assert_eq!(rt; parts(0, 1_000_000_000)?, (1, 0));
    assert_eq!(rt; parts(250, 4_294_967_295)?, (254, 294_967_295));
    assert_eq!(rt; parts(u64::MAX, 999_999_999)?, (u64::MAX, 999_999_999));
    assert_eq!(rt;
        parts(u64::MAX - 4, 4_294_967_295)?,
        (u64::MAX, 294_967_295)
    );
    for (secs, nanos) in [(u64::MAX, 1_000_000_000), (u64::MAX - 3, 4_294_967_295)] {
        assert_eq!(rt;
            Duration::new(secs, nanos),
            Err(ValueError::InvalidDuration { secs, nanos })
        );
    }
    Ok(())
}

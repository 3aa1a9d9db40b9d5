//! The format's own rules: claims and limits, the two marks, and the cases that lose bytes most easily.
use crate::tests::*;
use encoding::encode_into_slice;

/// Little-endian, variable integers, and a limit of so many bytes.
fn limited<const N: u64>() -> Configuration<LittleEndian, Varint, Limit<N>> {
    Configuration {
        endian: LittleEndian,
        int_encoding: Varint,
        limit: Limit,
    }
}

/// A limit of 8 admits one `u64`, and then no byte more; what was refused is counted.
#[test]
fn limit_of_one_integer(rt: HostRuntime) -> Result<(), Fail> {
    let mut decoder = DecoderImpl::new(SliceReader::new(&[5, 6]), limited::<8>());
    assert_eq!(rt; u64::decode(&mut decoder), Ok(5));
    assert_eq!(rt; decoder.claimed(), 8);
    assert_eq!(rt; u8::decode(&mut decoder), Err(LimitExceeded));
    assert_eq!(rt; decoder.claimed(), 9);
    assert_eq!(rt; decoder.into_reader().remaining(), 1);
    Ok(())
}

/// A limit of 7 refuses it, and then a byte too.
#[test]
fn limit_of_less(rt: HostRuntime) -> Result<(), Fail> {
    let mut decoder = DecoderImpl::new(SliceReader::new(&[5, 6]), limited::<7>());
    assert_eq!(rt; u64::decode(&mut decoder), Err(LimitExceeded));
    assert_eq!(rt; decoder.claimed(), 8);
    assert_eq!(rt; u8::decode(&mut decoder), Err(LimitExceeded));
    assert_eq!(rt; decoder.claimed(), 9);
    assert_eq!(rt; decoder.into_reader().remaining(), 2);
    Ok(())
}

/// A claim past 2^64 - 1 is refused and is not counted.
#[test]
fn claim_past_the_highest(rt: HostRuntime) -> Result<(), Fail> {
    let bytes = [0xfd, 0xff, 0xff, 0xff, 0xff, 0xff, 0xff, 0xff, 0xff];
    let mut decoder = DecoderImpl::new(SliceReader::new(&bytes), limited::<{ u64::MAX }>());
    assert_eq!(rt;
        strings::bytes::borrow_decode(&mut decoder),
        Err(LimitExceeded)
    );
    assert_eq!(rt; decoder.claimed(), 8);
    assert_eq!(rt; decoder.into_reader().remaining(), 0);
    Ok(())
}

/// The two marks of a tag that is too wide: what is named as expected, and whether the tag is gone.
#[test]
fn marks(rt: HostRuntime) -> Result<(), Fail> {
    let bytes = [0xfe, 1, 2, 3, 4, 5, 6, 7, 8];
    let mut seen = DecoderImpl::new(SliceReader::new(&bytes), LITTLE_VARIABLE);
    assert_eq!(rt;
        u64::decode(&mut seen),
        Err(InvalidIntegerType {
            expected: IntegerType::U32,
            found: IntegerType::U128
        })
    );
    assert_eq!(rt; seen.into_reader().remaining(), 9);
    let mut hidden = DecoderImpl::new(Unseen::new(SliceReader::new(&bytes)), LITTLE_VARIABLE);
    assert_eq!(rt;
        u64::decode(&mut hidden),
        Err(InvalidIntegerType {
            expected: IntegerType::U64,
            found: IntegerType::U128
        })
    );
    assert_eq!(rt; hidden.into_reader().into_inner().remaining(), 8);
    Ok(())
}

/// The cases that are easily lost, little-endian and variable.
#[test]
fn short_and_ill_formed(rt: HostRuntime) -> Result<(), Fail> {
    table! { &rt; Ok::<u16, ValueError>;
        LV, &[0xfb, 0x01], Whole, Err(UnexpectedEnd { additional: 1 }), 1;
        LV, &[0xfb, 0x07, 0x00], Whole, Ok(7), 0;
    }?;
    table! { &rt; Ok::<u64, ValueError>;
        LV, &[0x07], Whole, Ok(7), 0;
        LV, &[0xfd, 0x07, 0, 0, 0, 0, 0, 0, 0], Whole, Ok(7), 0;
    }?;
    table! { &rt; Char::new;
        LV, &[0xc0], Whole, Err(InvalidCharEncoding { first: 0xc0, second: 0, third: 0, fourth: 0 }), 0;
        LV, &[0xe2, 0x82], Whole, Err(UnexpectedEnd { additional: 1 }), 1;
        LV, &[0xed, 0xa0, 0x80], Whole, Err(InvalidCharEncoding { first: 0xed, second: 0xa0, third: 0x80, fourth: 0 }), 0;
    }
}

/// Nanoseconds carry into the seconds, so that what comes in with six bytes goes out with eight.
#[test]
fn nanoseconds_carry(rt: HostRuntime) -> Result<(), Fail> {
    let bytes = [0xfa, 0xfc, 0xff, 0xff, 0xff, 0xff];
    let mut decoder = DecoderImpl::new(SliceReader::new(&bytes), LITTLE_VARIABLE);
    let answer = Duration::decode(&mut decoder);
    assert_eq!(rt; decoder.into_reader().remaining(), 0);
    let duration = answer?;
    assert_eq!(rt; duration.as_secs(), 254);
    assert_eq!(rt; duration.subsec_nanos(), 294_967_295);
    let mut buffer = [0u8; 16];
    let stored = encode_into_slice(&duration, &mut buffer, LITTLE_VARIABLE);
    assert_eq!(rt; stored.answer, Ok(()));
    assert_eq!(rt; stored.len, 8);
    assert_eq!(rt;
        &buffer[..8],
        [0xfb, 0xfe, 0x00, 0xfc, 0xff, 0xd7, 0x94, 0x11].as_slice()
    );
    table! { &rt; |(secs, nanos): (u64, u32)| Duration::new(secs, nanos);
        LV, &[0x01, 0xfc, 0x00, 0xca, 0x9a, 0x3b], Whole, Ok((2, 0)), 0;
    }
}

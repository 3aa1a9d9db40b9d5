//! Options.
use crate::tests::*;

#[test]
fn options_of_integers(rt: HostRuntime) -> Result<(), Fail> {
    table! { &rt; rows::<Option<bool>>;
        None, LV, 64, Ok(()), &[0x00];
        None, BV, 0, Err(UnexpectedEnd), &[];
        Some(false), LV, 4, Ok(()), &[0x01, 0x00];
    }?;
    table! { &rt; rows::<Option<u8>>;
        None, BV, 4, Ok(()), &[0x00];
        None, BV, 24, Ok(()), &[0x00];
        Some(0), BF, 1, Err(UnexpectedEnd), &[0x01];
    }?;
    table! { &rt; rows::<Option<u16>>;
        Some(7), LV, 20, Ok(()), &[0x01, 0x07];
        Some(0), BV, 24, Ok(()), &[0x01, 0x00];
        Some(1), BV, 2, Ok(()), &[0x01, 0x01];
    }?;
    table! { &rt; rows::<Option<u32>>;
        None, BF, 3, Ok(()), &[0x00];
        None, BF, 64, Ok(()), &[0x00];
        Some(252), BV, 2, Err(UnexpectedEnd), &[0x01, 0xfb];
    }?;
    table! { &rt; rows::<Option<u64>>;
        Some(4294967295), LV, 3, Err(UnexpectedEnd), &[0x01, 0xfc];
        Some(255), LV, 4, Ok(()), &[0x01, 0xfb, 0xff, 0x00];
        Some(252), LF, 4, Err(UnexpectedEnd), &[0x01];
    }?;
    table! { &rt; rows::<Option<usize>>;
        Some(0), LF, 8, Err(UnexpectedEnd), &[0x01];
        None, BV, 9, Ok(()), &[0x00];
        Some(118594424708), LF, 2, Err(UnexpectedEnd), &[0x01];
    }?;
    table! { &rt; rows::<Option<i16>>;
        Some(841), BF, 3, Ok(()), &[0x01, 0x03, 0x49];
        None, BV, 1, Ok(()), &[0x00];
        None, BF, 64, Ok(()), &[0x00];
    }?;
    table! { &rt; rows::<Option<i32>>;
        Some(253), LV, 2, Err(UnexpectedEnd), &[0x01, 0xfb];
        Some(252), LF, 5, Ok(()), &[0x01, 0xfc, 0x00, 0x00, 0x00];
        Some(256), BV, 2, Err(UnexpectedEnd), &[0x01, 0xfb];
    }?;
    table! { &rt; rows::<Option<i64>>;
        Some(251), BF, 4, Err(UnexpectedEnd), &[0x01];
        None, LV, 3, Ok(()), &[0x00];
        Some(65534), BV, 12, Ok(()), &[0x01, 0xfc, 0x00, 0x01, 0xff, 0xfc];
    }
}

#[test]
fn options_of_others(rt: HostRuntime) -> Result<(), Fail> {
    each! { &rt; row;
        &Some(F64::from_bits(0xd5e8_02d7_d684_1ac9)), LITTLE_FIXED, 0, Err(UnexpectedEnd), &[];
        &Some(F64::from_bits(0x8000_0000_0000_0000)), BIG_FIXED, 12, Ok(()), &[0x01, 0x80, 0x00, 0x00, 0x00, 0x00, 0x00, 0x00, 0x00];
        &Some(span(0, 250)?), LITTLE_FIXED, 3, Err(UnexpectedEnd), &[0x01];
        &None::<Char>, BIG_FIXED, 8, Ok(()), &[0x00];
        &None::<Duration>, LITTLE_VARIABLE, 9, Ok(()), &[0x00];
        &Some(span(249110613, 250)?), BIG_VARIABLE, 9, Ok(()), &[0x01, 0xfc, 0x0e, 0xd9, 0x20, 0x55, 0xfa];
        &None::<F64>, BIG_FIXED, 1, Ok(()), &[0x00];
        &Some(scalar(65535)?), LITTLE_FIXED, 5, Ok(()), &[0x01, 0xef, 0xbf, 0xbf];
        &None::<Char>, LITTLE_FIXED, 1, Ok(()), &[0x00];
    }
}

#[test]
fn nested(rt: HostRuntime) -> Result<(), Fail> {
    table! { &rt; rows::<Option<Option<u16>>>;
        Some(Some(253)), BF, 64, Ok(()), &[0x01, 0x01, 0x00, 0xfd];
        Some(None), BV, 9, Ok(()), &[0x01, 0x00];
        None, BV, 8, Ok(()), &[0x00];
        Some(Some(1252)), LF, 24, Ok(()), &[0x01, 0x01, 0xe4, 0x04];
        None, BF, 0, Err(UnexpectedEnd), &[];
    }?;
    table! { &rt; rows::<Option<(u16, u16)>>;
        Some((21, 65534)), BV, 9, Ok(()), &[0x01, 0x15, 0xfb, 0xff, 0xfe];
        Some((1, 138)), LF, 8, Ok(()), &[0x01, 0x01, 0x00, 0x8a, 0x00];
        Some((17799, 0)), LV, 3, Err(UnexpectedEnd), &[0x01, 0xfb];
        Some((218, 0)), BF, 1, Err(UnexpectedEnd), &[0x01];
        Some((754, 1)), LV, 3, Err(UnexpectedEnd), &[0x01, 0xfb];
    }
}

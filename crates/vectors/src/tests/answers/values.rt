//! Characters, durations and doubles.
use crate::tests::*;

#[test]
fn characters(rt: HostRuntime) -> Result<(), Fail> {
    table! { &rt; rows_made, scalar;
        8364, LV, 20, Ok(()), &[0xe2, 0x82, 0xac];
        128, LF, 8, Ok(()), &[0xc2, 0x80];
        127, BV, 3, Ok(()), &[0x7f];
        65535, LF, 5, Ok(()), &[0xef, 0xbf, 0xbf];
        0, BF, 0, Err(UnexpectedEnd), &[];
        57344, BV, 5, Ok(()), &[0xee, 0x80, 0x80];
        0, LV, 4, Ok(()), &[0x00];
        1114111, BV, 9, Ok(()), &[0xf4, 0x8f, 0xbf, 0xbf];
    }
}

#[test]
fn durations(rt: HostRuntime) -> Result<(), Fail> {
    table! { &rt; rows_made, |(secs, nanos)| span(secs, nanos);
        (1, 5), LV, 20, Ok(()), &[0x01, 0x05];
        (254, 294967295), LV, 20, Ok(()), &[0xfb, 0xfe, 0x00, 0xfc, 0xff, 0xd7, 0x94, 0x11];
        (1, 999999999), BV, 1, Err(UnexpectedEnd), &[0x01];
        (782706080937827929, 80183558), BF, 8, Err(UnexpectedEnd), &[0x0a, 0xdc, 0xbb, 0x08, 0x9d, 0xd6, 0x5e, 0x59];
        (4294967296, 250), BV, 8, Err(UnexpectedEnd), &[0xfd];
        (12155955051, 251), BF, 4, Err(UnexpectedEnd), &[];
        (375372678718396, 999999999), BF, 24, Ok(()), &[0x00, 0x01, 0x55, 0x66, 0x43, 0x2c, 0x63, 0xbc, 0x3b, 0x9a, 0xc9, 0xff];
    }
}

#[test]
fn doubles(rt: HostRuntime) -> Result<(), Fail> {
    each! { &rt; row;
        &F64::from_bits(0x3ff0_0000_0000_0000), LITTLE_VARIABLE, 20, Ok(()), &[0x00, 0x00, 0x00, 0x00, 0x00, 0x00, 0xf0, 0x3f];
        &F64::from_bits(0x78ec_e903_0656_413d), BIG_VARIABLE, 0, Err(UnexpectedEnd), &[];
        &F64::from_bits(0x3ff0_0000_0000_0000), BIG_VARIABLE, 2, Err(UnexpectedEnd), &[];
        &F64::from_bits(0x7ff0_0000_0000_0001), LITTLE_FIXED, 1, Err(UnexpectedEnd), &[];
        &F64::from_bits(0x8000_0000_0000_0000), LITTLE_FIXED, 2, Err(UnexpectedEnd), &[];
        &F64::from_bits(0x0000_0000_0000_0000), BIG_VARIABLE, 5, Err(UnexpectedEnd), &[];
        &F64::from_bits(0x3ff0_0000_0000_0000), LITTLE_VARIABLE, 9, Ok(()), &[0x00, 0x00, 0x00, 0x00, 0x00, 0x00, 0xf0, 0x3f];
    }
}

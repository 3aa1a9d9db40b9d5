//! Pairs.
use crate::tests::*;

#[test]
fn pairs_of_integers(rt: HostRuntime) -> Result<(), Fail> {
    table! { &rt; rows::<(u8, u16)>;
        (0, 432), LV, 4, Ok(()), &[0x00, 0xfb, 0xb0, 0x01];
        (250, 0), LV, 5, Ok(()), &[0xfa, 0x00];
        (254, 36874), BV, 5, Ok(()), &[0xfe, 0xfb, 0x90, 0x0a];
        (254, 2), LF, 24, Ok(()), &[0xfe, 0x02, 0x00];
        (8, 3), LV, 5, Ok(()), &[0x08, 0x03];
    }?;
    table! { &rt; rows::<(u32, i16)>;
        (5431, 254), LF, 4, Err(UnexpectedEnd), &[0x37, 0x15, 0x00, 0x00];
        (467948051, 252), LF, 12, Ok(()), &[0x13, 0x52, 0xe4, 0x1b, 0xfc, 0x00];
        (251, 125), BF, 1, Err(UnexpectedEnd), &[];
        (1, 0), BF, 0, Err(UnexpectedEnd), &[];
        (1680767, 0), BF, 12, Ok(()), &[0x00, 0x19, 0xa5, 0x7f, 0x00, 0x00];
    }
}

#[test]
fn pairs_with_a_duration(rt: HostRuntime) -> Result<(), Fail> {
    each! { &rt; row;
        &(4294967295u64, span(1039423578680994, 1)?), BIG_FIXED, 24, Ok(()), &[0x00, 0x00, 0x00, 0x00, 0xff, 0xff, 0xff, 0xff, 0x00, 0x03, 0xb1, 0x59, 0xa9, 0x2d, 0xae, 0xa2, 0x00, 0x00, 0x00, 0x01];
        &(252u64, span(400584535502916356, 1)?), BIG_VARIABLE, 5, Err(UnexpectedEnd), &[0xfb, 0x00, 0xfc, 0xfd];
        &(934211092u64, span(7443215117051, 251)?), BIG_VARIABLE, 3, Err(UnexpectedEnd), &[0xfc];
        &(252u64, span(211440, 999999999)?), LITTLE_FIXED, 24, Ok(()), &[0xfc, 0x00, 0x00, 0x00, 0x00, 0x00, 0x00, 0x00, 0xf0, 0x39, 0x03, 0x00, 0x00, 0x00, 0x00, 0x00, 0xff, 0xc9, 0x9a, 0x3b];
        &(852304041987274u64, span(9223372036854775809, 581347353)?), BIG_VARIABLE, 1, Err(UnexpectedEnd), &[0xfd];
    }
}

#[test]
fn pairs_in_a_pair(rt: HostRuntime) -> Result<(), Fail> {
    each! { &rt; row;
        &(true, (scalar(57344)?, F64::from_bits(0x8000_0000_0000_0000))), LITTLE_VARIABLE, 8, Err(UnexpectedEnd), &[0x01, 0xee, 0x80, 0x80];
        &(false, (scalar(1114111)?, F64::from_bits(0xa9d6_abee_8820_c1de))), BIG_FIXED, 24, Ok(()), &[0x00, 0xf4, 0x8f, 0xbf, 0xbf, 0xa9, 0xd6, 0xab, 0xee, 0x88, 0x20, 0xc1, 0xde];
        &(false, (scalar(128)?, F64::from_bits(0x8000_0000_0000_0000))), LITTLE_FIXED, 8, Err(UnexpectedEnd), &[0x00, 0xc2, 0x80];
        &(false, (scalar(2047)?, F64::from_bits(0x7ff0_0000_0000_0001))), LITTLE_FIXED, 64, Ok(()), &[0x00, 0xdf, 0xbf, 0x01, 0x00, 0x00, 0x00, 0x00, 0x00, 0xf0, 0x7f];
        &(false, (scalar(2047)?, F64::from_bits(0x3ff0_0000_0000_0000))), BIG_VARIABLE, 5, Err(UnexpectedEnd), &[0x00, 0xdf, 0xbf];
    }
}

//! Integers and truth values.
use crate::tests::*;

#[test]
fn unsigned(rt: HostRuntime) -> Result<(), Fail> {
    table! { &rt; rows::<bool>;
        false, BV, 3, Ok(()), &[0x00];
        false, BF, 2, Ok(()), &[0x00];
        true, BF, 9, Ok(()), &[0x01];
    }?;
    table! { &rt; rows::<u8>;
        31, BF, 64, Ok(()), &[0x1f];
        249, BF, 1, Ok(()), &[0xf9];
    }?;
    table! { &rt; rows::<u16>;
        1, LF, 8, Ok(()), &[0x01, 0x00];
        65535, BV, 1, Err(UnexpectedEnd), &[0xfb];
    }?;
    table! { &rt; rows::<u32>;
        7, BF, 20, Ok(()), &[0x00, 0x00, 0x00, 0x07];
        9, LV, 9, Ok(()), &[0x09];
        4294967294, LV, 4, Err(UnexpectedEnd), &[0xfc];
        249, BF, 64, Ok(()), &[0x00, 0x00, 0x00, 0xf9];
        250, LV, 1, Ok(()), &[0xfa];
        251, BV, 4, Ok(()), &[0xfb, 0x00, 0xfb];
        65534, LF, 64, Ok(()), &[0xfe, 0xff, 0x00, 0x00];
        876, BF, 3, Err(UnexpectedEnd), &[];
    }?;
    table! { &rt; rows::<u64>;
        250, LV, 20, Ok(()), &[0xfa];
        251, LV, 20, Ok(()), &[0xfb, 0xfb, 0x00];
        251, BV, 20, Ok(()), &[0xfb, 0x00, 0xfb];
        65535, LV, 20, Ok(()), &[0xfb, 0xff, 0xff];
        65536, LV, 20, Ok(()), &[0xfc, 0x00, 0x00, 0x01, 0x00];
        4294967296, LV, 20, Ok(()), &[0xfd, 0x00, 0x00, 0x00, 0x00, 0x01, 0x00, 0x00, 0x00];
        4294967296, BV, 8, Err(UnexpectedEnd), &[0xfd];
        65537, LF, 9, Ok(()), &[0x01, 0x00, 0x01, 0x00, 0x00, 0x00, 0x00, 0x00];
    }?;
    table! { &rt; rows::<usize>;
        0, BV, 0, Err(UnexpectedEnd), &[];
        9223372036854775808, LF, 5, Err(UnexpectedEnd), &[];
        0, LF, 64, Ok(()), &[0x00, 0x00, 0x00, 0x00, 0x00, 0x00, 0x00, 0x00];
        59, LV, 5, Ok(()), &[0x3b];
        65537, LV, 64, Ok(()), &[0xfc, 0x01, 0x00, 0x01, 0x00];
    }
}

#[test]
fn signed(rt: HostRuntime) -> Result<(), Fail> {
    table! { &rt; rows::<i16>;
        2, BF, 0, Err(UnexpectedEnd), &[];
        -1, LV, 0, Err(UnexpectedEnd), &[];
        0, LF, 4, Ok(()), &[0x00, 0x00];
    }?;
    table! { &rt; rows::<i32>;
        -1, LV, 20, Ok(()), &[0x01];
        -2147483648, LV, 20, Ok(()), &[0xfc, 0xff, 0xff, 0xff, 0xff];
        2024, BV, 24, Ok(()), &[0xfb, 0x0f, 0xd0];
        2, BV, 12, Ok(()), &[0x04];
        252, BF, 24, Ok(()), &[0x00, 0x00, 0x00, 0xfc];
        251, LF, 0, Err(UnexpectedEnd), &[];
        15, LV, 0, Err(UnexpectedEnd), &[];
    }?;
    table! { &rt; rows::<i64>;
        68807317375190, BV, 3, Err(UnexpectedEnd), &[0xfd];
        252, LF, 24, Ok(()), &[0xfc, 0x00, 0x00, 0x00, 0x00, 0x00, 0x00, 0x00];
        250, LV, 4, Ok(()), &[0xfb, 0xf4, 0x01];
        254, LV, 4, Ok(()), &[0xfb, 0xfc, 0x01];
        16666242960, LF, 64, Ok(()), &[0x90, 0xaf, 0x62, 0xe1, 0x03, 0x00, 0x00, 0x00];
        0, BV, 0, Err(UnexpectedEnd), &[];
        39722425262612, LF, 64, Ok(()), &[0x14, 0x22, 0x0c, 0x99, 0x20, 0x24, 0x00, 0x00];
    }
}

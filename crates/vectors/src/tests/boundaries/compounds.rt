//! Options, results, bounds and pairs: a tag or a first part that fits, and a value behind it that does not.
use crate::tests::boundaries::*;

#[test]
fn options(rt: HostRuntime) -> Result<(), Fail> {
    table! { &rt; writings::<Option<u64>>;
        None, LV, &[0x00], &[1];
        None, BF, &[0x00], &[1];
        Some(250), LV, &[0x01, 0xfa], &[1, 2];
        Some(u64::MAX), LV, &[0x01, 0xfd, 0xff, 0xff, 0xff, 0xff, 0xff, 0xff, 0xff, 0xff], &[1, 2, 10];
        Some(u64::MAX), LF, &[0x01, 0xff, 0xff, 0xff, 0xff, 0xff, 0xff, 0xff, 0xff], &[1, 9];
    }
}

#[test]
fn results_and_bounds(rt: HostRuntime) -> Result<(), Fail> {
    table! { &rt; writings::<Result<u8, u64>>;
        Ok(255), LV, &[0x00, 0xff], &[1, 2];
        Ok(255), LF, &[0x00, 0x00, 0x00, 0x00, 0xff], &[4, 5];
        Err(251), BV, &[0x01, 0xfb, 0x00, 0xfb], &[1, 2, 4];
        Err(251), BF, &[0x00, 0x00, 0x00, 0x01, 0x00, 0x00, 0x00, 0x00, 0x00, 0x00, 0x00, 0xfb], &[4, 12];
    }?;
    table! { &rt; writings::<Bound<u16>>;
        Bound::Unbounded, LV, &[0x00], &[1];
        Bound::Unbounded, LF, &[0x00, 0x00, 0x00, 0x00], &[4];
        Bound::Included(251), LV, &[0x01, 0xfb, 0xfb, 0x00], &[1, 2, 4];
        Bound::Excluded(250), BV, &[0x02, 0xfa], &[1, 2];
        Bound::Excluded(1), BF, &[0x00, 0x00, 0x00, 0x02, 0x00, 0x01], &[4, 6];
    }
}

#[test]
fn pairs_and_nested(rt: HostRuntime) -> Result<(), Fail> {
    table! { &rt; writings::<(u8, i32)>;
        (251, -1), LV, &[0xfb, 0x01], &[1, 2];
        (7, 32768), LV, &[0x07, 0xfc, 0x00, 0x00, 0x01, 0x00], &[1, 2, 6];
        (7, -2), BF, &[0x07, 0xff, 0xff, 0xff, 0xfe], &[1, 5];
    }?;
    table! { &rt; writings::<Option<(Option<u16>, Result<u8, bool>)>>;
        Some((None, Err(true))), LV, &[0x01, 0x00, 0x01, 0x01], &[1, 2, 3, 4];
        Some((Some(251), Ok(7))), LV, &[0x01, 0x01, 0xfb, 0xfb, 0x00, 0x00, 0x07], &[1, 2, 3, 5, 6, 7];
        Some((Some(251), Ok(7))), BF, &[0x01, 0x01, 0x00, 0xfb, 0x00, 0x00, 0x00, 0x00, 0x07], &[1, 2, 4, 8, 9];
    }?;
    let priced = Bound::Included((scalar(8364)?, F64::from_bits(0x3ff0_0000_0000_0000)));
    each! { &rt; writing;
        &priced, LF, &[0x01, 0x00, 0x00, 0x00, 0xe2, 0x82, 0xac, 0x00, 0x00, 0x00, 0x00, 0x00, 0x00, 0xf0, 0x3f], &[4, 7, 15];
    }
}

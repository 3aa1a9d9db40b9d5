//! Results and bounds.
use crate::tests::*;

#[test]
fn results(rt: HostRuntime) -> Result<(), Fail> {
    table! { &rt; rows::<Result<u8, bool>>;
        Err(true), LF, 20, Ok(()), &[0x01, 0x00, 0x00, 0x00, 0x01];
        Err(true), BF, 9, Ok(()), &[0x00, 0x00, 0x00, 0x01, 0x01];
        Ok(255), LF, 24, Ok(()), &[0x00, 0x00, 0x00, 0x00, 0xff];
        Err(true), BV, 5, Ok(()), &[0x01, 0x01];
        Err(false), LF, 4, Err(UnexpectedEnd), &[0x01, 0x00, 0x00, 0x00];
    }?;
    table! { &rt; rows::<Result<u32, u64>>;
        Ok(639464), LV, 5, Err(UnexpectedEnd), &[0x00, 0xfc];
        Err(250), BF, 12, Ok(()), &[0x00, 0x00, 0x00, 0x01, 0x00, 0x00, 0x00, 0x00, 0x00, 0x00, 0x00, 0xfa];
        Err(254), BV, 3, Err(UnexpectedEnd), &[0x01, 0xfb];
    }?;
    table! { &rt; rows::<Result<Option<u16>, i64>>;
        Ok(Some(254)), BV, 3, Err(UnexpectedEnd), &[0x00, 0x01, 0xfb];
        Err(4294967295), BV, 4, Err(UnexpectedEnd), &[0x01, 0xfd];
        Err(253500366), BV, 3, Err(UnexpectedEnd), &[0x01, 0xfc];
        Err(4294967296), LV, 2, Err(UnexpectedEnd), &[0x01, 0xfd];
        Err(254), LV, 8, Ok(()), &[0x01, 0xfb, 0xfc, 0x01];
    }
}

#[test]
fn bounds_of_integers(rt: HostRuntime) -> Result<(), Fail> {
    table! { &rt; rows::<Bound<u16>>;
        Bound::Excluded(1), BV, 12, Ok(()), &[0x02, 0x01];
        Bound::Included(2), LV, 2, Ok(()), &[0x01, 0x02];
        Bound::Included(24), LV, 1, Err(UnexpectedEnd), &[0x01];
        Bound::Excluded(1), BF, 5, Err(UnexpectedEnd), &[0x00, 0x00, 0x00, 0x02];
        Bound::Excluded(254), BV, 2, Err(UnexpectedEnd), &[0x02, 0xfb];
    }?;
    table! { &rt; rows::<Bound<u64>>;
        Bound::Unbounded, LF, 4, Ok(()), &[0x00, 0x00, 0x00, 0x00];
        Bound::Included(255), LV, 2, Err(UnexpectedEnd), &[0x01, 0xfb];
        Bound::Included(251), BV, 3, Err(UnexpectedEnd), &[0x01, 0xfb];
        Bound::Included(253), LF, 12, Ok(()), &[0x01, 0x00, 0x00, 0x00, 0xfd, 0x00, 0x00, 0x00, 0x00, 0x00, 0x00, 0x00];
        Bound::Included(63724418581984), LV, 5, Err(UnexpectedEnd), &[0x01, 0xfd];
    }
}

#[test]
fn bounds_of_characters(rt: HostRuntime) -> Result<(), Fail> {
    each! { &rt; row;
        &Bound::<Char>::Unbounded, BIG_FIXED, 0, Err(UnexpectedEnd), &[];
        &Bound::<Char>::Unbounded, BIG_VARIABLE, 12, Ok(()), &[0x00];
        &Bound::Included(scalar(128)?), BIG_FIXED, 0, Err(UnexpectedEnd), &[];
        &Bound::Excluded(scalar(0)?), LITTLE_VARIABLE, 24, Ok(()), &[0x02, 0x00];
        &Bound::Excluded(scalar(65535)?), LITTLE_FIXED, 24, Ok(()), &[0x02, 0x00, 0x00, 0x00, 0xef, 0xbf, 0xbf];
    }
}

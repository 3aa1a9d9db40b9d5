//! Byte strings and text, which are handed out in place from a slice.
use crate::tests::*;
use strings::{bytes, text};

/// A row of a byte string or a text: the policy, the bytes that wait, the answer, and how many bytes are left.
type Part = (
    Under,
    &'static [u8],
    Result<&'static [u8], DecodeError>,
    usize,
);

/// Compares what a call over these bytes gave and left.
fn told(
    rt: &impl Abort,
    given: Result<&[u8], DecodeError>,
    reader: SliceReader<'_>,
    want: &Result<&'static [u8], DecodeError>,
    left: usize,
) -> Result<(), Fail> {
    match (given, want) {
        (Ok(part), Ok(bytes)) => assert_eq!(rt; part, *bytes),
        (Err(fault), Err(e)) => assert_eq!(rt; fault, *e),
        _ => assert!(rt; false),
    }
    assert_eq!(rt; reader.remaining(), left);
    Ok(())
}

/// Decodes a byte string under a policy.
fn byte_string<C: Policy>(
    rt: &impl Abort,
    bytes: &[u8],
    config: C,
    want: &Result<&'static [u8], DecodeError>,
    left: usize,
) -> Result<(), Fail> {
    let mut decoder = DecoderImpl::new(SliceReader::new(bytes), config);
    let given = bytes::borrow_decode(&mut decoder);
    told(rt, given, decoder.into_reader(), want, left)
}

/// Decodes a text under a policy.
fn text_string<C: Policy>(
    rt: &impl Abort,
    bytes: &[u8],
    config: C,
    want: &Result<&'static [u8], DecodeError>,
    left: usize,
) -> Result<(), Fail> {
    let mut decoder = DecoderImpl::new(SliceReader::new(bytes), config);
    let given = text::borrow_decode(&mut decoder).map(|s| s.as_bytes());
    told(rt, given, decoder.into_reader(), want, left)
}

#[test]
fn byte_strings(rt: HostRuntime) -> Result<(), Fail> {
    let table: [Part; 5] = [
        (LV, &[], Err(UnexpectedEnd { additional: 1 }), 0),
        (
            LF,
            &[
                0xed, 0x80, 0x01, 0x78, 0x51, 0x00, 0xf4, 0xfc, 0xef, 0xf5, 0x02, 0xef,
            ],
            Err(UnexpectedEnd {
                additional: 18227193941780955369,
            }),
            4,
        ),
        (BF, &[], Err(UnexpectedEnd { additional: 8 }), 0),
        (LF, &[], Err(UnexpectedEnd { additional: 8 }), 0),
        (
            BF,
            &[
                0xc0, 0x03, 0x01, 0x21, 0xf5, 0x07, 0xc1, 0xbf, 0xc2, 0x61, 0x80, 0xdf, 0x6a, 0xdf,
                0xfb, 0xf4, 0x03, 0x02, 0x00, 0x80, 0xbf, 0x07, 0xfd, 0xfa,
            ],
            Err(UnexpectedEnd {
                additional: 13835903725568770479,
            }),
            16,
        ),
    ];
    for (under, bytes, want, left) in &table {
        under!(*under; config => byte_string(&rt, bytes, config, want, *left))?;
    }
    Ok(())
}

#[test]
fn texts(rt: HostRuntime) -> Result<(), Fail> {
    let table: [Part; 8] = [
        (
            LV,
            &[0x02, 0x61, 0xe2],
            Err(Utf8 {
                valid_up_to: 1,
                error_len: None,
            }),
            0,
        ),
        (BF, &[0xc0], Err(UnexpectedEnd { additional: 7 }), 1),
        (BF, &[], Err(UnexpectedEnd { additional: 8 }), 0),
        (BV, &[], Err(UnexpectedEnd { additional: 1 }), 0),
        (
            LV,
            &[0x02, 0xfb, 0xff],
            Err(Utf8 {
                valid_up_to: 0,
                error_len: Some(1),
            }),
            0,
        ),
        (
            BF,
            &[0xdf, 0x83, 0xc2, 0xff, 0xf9, 0xf0, 0x3f, 0x03, 0x4e],
            Err(UnexpectedEnd {
                additional: 16105931097072746242,
            }),
            1,
        ),
        (
            LF,
            &[
                0xf6, 0xe0, 0x03, 0xfd, 0x03, 0x4d, 0x07, 0xfe, 0x46, 0xdf, 0xfe, 0xfc, 0xf4, 0xfe,
                0x80, 0x07, 0x2b, 0x00, 0x03, 0x03, 0x2c, 0xfa, 0x02, 0xbf, 0xfd, 0xf0, 0xf4, 0xe0,
                0xed, 0xfb, 0xff, 0xe0, 0x00, 0x03, 0xe0, 0xa4, 0x80, 0x80, 0x01, 0xf0,
            ],
            Err(UnexpectedEnd {
                additional: 18304683889995800790,
            }),
            32,
        ),
        (LF, &[0x61, 0x03], Err(UnexpectedEnd { additional: 6 }), 2),
    ];
    for (under, bytes, want, left) in &table {
        under!(*under; config => text_string(&rt, bytes, config, want, *left))?;
    }
    Ok(())
}

/// What is accepted, by the format's own rules: among the answers that were handed over there is none.
#[test]
fn handed_out(rt: HostRuntime) -> Result<(), Fail> {
    let table: [Part; 3] = [
        (
            LV,
            &[0x03, 0x01, 0x02, 0x03, 0x04],
            Ok(&[0x01, 0x02, 0x03]),
            1,
        ),
        (LV, &[0xfb, 0x02, 0x00, 0xff, 0x00], Ok(&[0xff, 0x00]), 0),
        (
            BF,
            &[0x00, 0x00, 0x00, 0x00, 0x00, 0x00, 0x00, 0x00],
            Ok(&[]),
            0,
        ),
    ];
    for (under, bytes, want, left) in &table {
        under!(*under; config => byte_string(&rt, bytes, config, want, *left))?;
    }
    let table: [Part; 2] = [
        (
            LV,
            &[
                0x0b, 0x41, 0xce, 0xa9, 0xe2, 0x82, 0xac, 0xf0, 0x9f, 0x98, 0x80, 0x41,
            ],
            Ok(&[
                0x41, 0xce, 0xa9, 0xe2, 0x82, 0xac, 0xf0, 0x9f, 0x98, 0x80, 0x41,
            ]),
            0,
        ),
        (BV, &[0x00, 0x07], Ok(&[]), 1),
    ];
    for (under, bytes, want, left) in &table {
        under!(*under; config => text_string(&rt, bytes, config, want, *left))?;
    }
    Ok(())
}

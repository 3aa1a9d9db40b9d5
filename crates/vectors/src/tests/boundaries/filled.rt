//! Writers that are filled, and what a size writer counts.
use crate::tests::boundaries::*;

/// Encodes one value and then another into a writer, and gives the writer back.
fn two<T: Element, U: Element, W: Writer>(a: &T, b: &U, mut writer: W) -> (Answer, Answer, W) {
    let one = encode_into_writer(a, &mut writer, LITTLE_VARIABLE);
    let other = encode_into_writer(b, &mut writer, LITTLE_VARIABLE);
    (one, other, writer)
}

#[test]
fn full_slice(rt: HostRuntime) -> Result<(), Fail> {
    let mut buffer = [FILL; 3];
    let (one, other, writer) = two(&251u64, &7u8, SliceWriter::new(&mut buffer));
    assert_eq!(rt; one, Ok(()));
    assert_eq!(rt; other, Err(UnexpectedEnd));
    assert_eq!(rt; writer.bytes_written(), 3);
    assert_eq!(rt; writer.remaining(), 0);
    assert_eq!(rt; buffer, [0xfb, 0xfb, 0x00]);
    Ok(())
}

#[test]
fn full_page(rt: HostRuntime) -> Result<(), Fail> {
    let mut page = PageWriter::new();
    for n in 0..=255u8 {
        encode_into_writer(&n, &mut page, LITTLE_VARIABLE)?;
    }
    assert_eq!(rt; page.remaining(), 0);
    assert_eq!(rt;
        encode_into_writer(&7u8, &mut page, LITTLE_VARIABLE),
        Err(UnexpectedEnd)
    );
    assert_eq!(rt; page.bytes_written(), 256);
    Ok(())
}

#[test]
fn page_of_a_string(rt: HostRuntime) -> Result<(), Fail> {
    let (answer, page) = encoded(
        PageWriter::new(),
        LITTLE_VARIABLE,
        |e| encode_bytes(&[7; 253], e),
    );
    assert_eq!(rt; answer, Ok(()));
    assert_eq!(rt; page.remaining(), 0);
    let (answer, page) = encoded(
        PageWriter::new(),
        LITTLE_VARIABLE,
        |e| encode_bytes(&[7; 254], e),
    );
    assert_eq!(rt; answer, Err(UnexpectedEnd));
    assert_eq!(rt; page.bytes_written(), 3);
    Ok(())
}

#[test]
fn size_of_a_record(rt: HostRuntime) -> Result<(), Fail> {
    let record = (70001u32, (-12i16, Some(4200u16)));
    let (one, other, size) = two(&record, &251u64, SizeWriter::new());
    assert_eq!(rt; one, Ok(()));
    assert_eq!(rt; other, Ok(()));
    assert_eq!(rt; size.bytes_written(), 13);
    let (answer, size) = encoded(size, LITTLE_VARIABLE, |e| encode_bytes(&[1, 2, 3, 4, 5], e));
    assert_eq!(rt; answer, Ok(()));
    let (answer, size) = encoded(size, LITTLE_VARIABLE, |e| encode_str("A-17 Ω", e));
    assert_eq!(rt; answer, Ok(()));
    assert_eq!(rt; size.bytes_written(), 27);
    Ok(())
}

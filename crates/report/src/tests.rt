//! What a reader gives is read, up to one byte past the longest text.
use crate::file::read_text;
use hoa_tokens::LONGEST_TEXT;
use std::test::Fail;

#[test]
fn texts_are_read(rt: HostRuntime) -> Result<(), Fail> {
    let text: &[u8] = b"HOA: v1";
    let bytes = read_text(rt.alloc(), text)?;
    assert!(rt; bytes.as_slice() == text);
    let none: &[u8] = b"";
    let bytes = read_text(rt.alloc(), none)?;
    assert_eq!(rt; bytes.len(), 0);
    Ok(())
}

#[test]
fn one_byte_too_many_is_enough(rt: HostRuntime) -> Result<(), Fail> {
    let long = [b' '; LONGEST_TEXT + 5];
    let bytes = read_text(rt.alloc(), &long[..])?;
    assert_eq!(rt; bytes.len(), LONGEST_TEXT + 1);
    Ok(())
}

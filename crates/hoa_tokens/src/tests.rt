//! The boundary of each rule.
use crate::fault::{Fault, Layer, Refusal};
use crate::text::{LONGEST_TEXT, Text};
use crate::token::{Mark, Placed, Token};

/// How many tokens the bytes have, or their first fault.
fn count(bytes: &[u8]) -> Result<usize, Fault> {
    Text::new(bytes)?.count()
}

fn refused(refusal: Refusal, place: usize) -> Result<usize, Fault> {
    Err(Fault {
        refusal,
        place,
        layer: Layer::Bytes,
    })
}

fn scan(bytes: &[u8], from: usize) -> Result<Placed<'_>, Fault> {
    Text::new(bytes)?.scan(from)
}

fn placed(token: Token<'_>, place: usize, next: usize) -> Result<Placed<'_>, Fault> {
    Ok(Placed { token, place, next })
}

#[test]
fn blanks_part_tokens(rt: HostRuntime) {
    assert_eq!(rt; count(b""), Ok(0));
    assert_eq!(rt; count(b" \t\n\r"), Ok(0));
    assert_eq!(rt; count(b"a\tb\nc\rd e"), Ok(5));
    assert_eq!(rt; count(b"a\x0bb"), refused(Refusal::BadByte, 1));
    assert_eq!(rt; count(b"a\x0cb"), refused(Refusal::BadByte, 1));
    assert_eq!(rt; count(b"a\0"), refused(Refusal::BadByte, 1));
    assert_eq!(rt; count(b"\xc3\xa9"), refused(Refusal::BadByte, 0));
    assert_eq!(rt; scan(b"  ", 0), placed(Token::End, 2, 2));
    assert_eq!(rt; scan(b"a ", 1), placed(Token::End, 2, 2));
    assert_eq!(rt; scan(b"a", 7), placed(Token::End, 1, 1));
}

#[test]
fn words_are_as_long_as_they_can_be(rt: HostRuntime) {
    assert_eq!(rt;
        scan(b" States:3", 0),
        placed(Token::Word(b"States:"), 1, 8)
    );
    assert_eq!(rt;
        scan(b"--BODY--State:", 0),
        placed(Token::Word(b"--BODY--State:"), 0, 14)
    );
    assert_eq!(rt; scan(b"-1", 0), placed(Token::Word(b"-1"), 0, 2));
    assert_eq!(rt; scan(b"t:", 0), placed(Token::Word(b"t:"), 0, 2));
    assert_eq!(rt; scan(b"65x", 2), placed(Token::Word(b"x"), 2, 3));
    assert_eq!(rt; count(b"HOA::"), refused(Refusal::BadByte, 4));
    assert_eq!(rt; count(b"HOA :"), refused(Refusal::BadByte, 4));
    assert_eq!(rt; count(b"a_b"), refused(Refusal::BadByte, 1));
    assert_eq!(rt; count(b"Zz@"), refused(Refusal::BadByte, 2));
}

#[test]
fn numbers_are_plain(rt: HostRuntime) {
    assert_eq!(rt; scan(b"9999", 0), placed(Token::Number(9999), 0, 4));
    assert_eq!(rt; scan(b"0", 0), placed(Token::Number(0), 0, 1));
    assert_eq!(rt; scan(b"10Inf", 0), placed(Token::Number(10), 0, 2));
    assert_eq!(rt; count(b" 10000"), refused(Refusal::BadNumber, 1));
    assert_eq!(rt;
        count(b"99999999999999999999999"),
        refused(Refusal::BadNumber, 0)
    );
    assert_eq!(rt; count(b"00"), refused(Refusal::BadNumber, 0));
    assert_eq!(rt; count(b"1 01"), refused(Refusal::BadNumber, 2));
}

#[test]
fn names_stand_between_quotes(rt: HostRuntime) {
    assert_eq!(rt; scan(b"\"a\"", 0), placed(Token::Name(b"a"), 0, 3));
    assert_eq!(rt; scan(b" \" ~\"", 0), placed(Token::Name(b" ~"), 1, 5));
    assert_eq!(rt; count(b"\"12345678901234567890123456789012\""), Ok(1));
    assert_eq!(rt;
        count(b"\"123456789012345678901234567890123\""),
        refused(Refusal::BadByte, 0)
    );
    assert_eq!(rt; count(b"a \"\""), refused(Refusal::BadByte, 2));
    assert_eq!(rt; count(b"\"a"), refused(Refusal::BadByte, 0));
    assert_eq!(rt; count(b"\"a\\\""), refused(Refusal::BadByte, 0));
    assert_eq!(rt; count(b"\"\x1f\""), refused(Refusal::BadByte, 0));
    assert_eq!(rt; count(b"\"\x7f\""), refused(Refusal::BadByte, 0));
}

#[test]
fn marks_are_single_bytes(rt: HostRuntime) {
    assert_eq!(rt; count(b"[]{}()!&|"), Ok(9));
    assert_eq!(rt; scan(b"!&|", 1), placed(Token::Mark(Mark::And), 1, 2));
    assert_eq!(rt; count(b"$"), refused(Refusal::BadByte, 0));
    assert_eq!(rt; count(b"=<>"), refused(Refusal::BadByte, 0));
}

#[test]
fn texts_have_a_longest(rt: HostRuntime) {
    let bytes = [b' '; LONGEST_TEXT + 1];
    assert_eq!(rt; count(&bytes[0..LONGEST_TEXT]), Ok(0));
    assert_eq!(rt; count(&bytes), refused(Refusal::TooLong, LONGEST_TEXT));
}

#[test]
fn cases_have_numbers_and_bytes(rt: HostRuntime) {
    assert_eq!(rt; u8::from(Refusal::BadByte), 11);
    assert_eq!(rt; u8::from(Layer::Meaning), 3);
    assert_eq!(rt; u8::from(Mark::OpenParen), b'(');
    assert_eq!(rt; Mark::try_from(b'('), Ok(Mark::OpenParen));
    assert_eq!(rt; Mark::try_from(b'a'), Err(Refusal::BadByte));
    assert_eq!(rt; refused(Refusal::BadByte, 7), Err(Refusal::BadByte.at(7)));
}

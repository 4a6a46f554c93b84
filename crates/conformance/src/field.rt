//! The fields of a line: what stands before and behind the first byte of a kind, and what number digits write.
ghost use Rattle.std.specs.Prelude.{◌≡◌, ◌+◌, ◌<◌, ◌≤◌, length, fold, ◌==◌};
ghost use Rattle.conformance.specs.Fields.{front_of, behind_of, grown_by_digit, most_number};
ghost use Rattle.std.specs.List.{position_or_len};

/// The greatest number of a table.
const MOST_NUMBER: usize = 1_000_000;

/// The place of the first byte `b`, or the end.
// The end and no None, so that what stands before and behind is a slice in both cases.
fn place(bytes: &[u8], b: u8) -> usize
    ensures is { result ≡ position_or_len (λ x. x == b) bytes.now }
    ensures within { result ≤ length bytes.now }
{
    bytes.iter().position(|x| *x == b).unwrap_or(bytes.len())
}

/// What stands before the first byte `b`; all where there is none.
pub(crate) fn front(bytes: &[u8], b: u8) -> &[u8]
    ensures { result.now ≡ front_of b bytes.now }
{
    &bytes[0..place(bytes, b)]
}

/// What stands behind the first byte `b`; nothing where there is none.
pub(crate) fn behind(bytes: &[u8], b: u8) -> &[u8]
    ensures is { result.now ≡ behind_of b bytes.now }
    ensures less { 0 < length bytes.now → length result.now < length bytes.now }
{
    let end = place(bytes, b);
    if end < bytes.len() {
        &bytes[end + 1..]
    } else {
        &bytes[end..]
    }
}

/// The number that is written by the digits of `value` and one more, at most 1,000,000.
fn with_digit(value: usize, digit: u8) -> usize
    requires { value ≤ most_number }
    ensures is { result ≡ grown_by_digit value digit }
    ensures few { result ≤ most_number }
{
    (10 * value + (digit as usize).saturating_sub(48)).min(MOST_NUMBER)
}

/// The number that decimal digits write, at most 1,000,000.
pub(crate) fn number(digits: &[u8]) -> usize
    ensures is { result ≡ fold grown_by_digit 0 digits.now }
    ensures few { result ≤ most_number }
{
    let mut value = 0;
    for digit in digits {
        value = with_digit(value, *digit);
    }
    value
}

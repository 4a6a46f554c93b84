//! The token at or behind a position of a text.
ghost use Rattle.std.specs.Prelude.{◌≡◌, ◌+◌, ◌<◌, ◌≤◌, min, true, length, Ok, slice_index};
ghost use Rattle.hoa_tokens.specs.Bytes.{letter, digit, quote, member, value, plain};
ghost use Rattle.hoa_tokens.specs.Items.{Run};
ghost use Rattle.hoa_tokens.specs.Scanning.{found, Stands, Scanned, Ahead, clipped};
ghost use Rattle.hoa_tokens.specs.Steps.{AllDigits, WithColon, closes};

use crate::class::{Class, is_digit, is_letter};
use crate::fault::{Fault, Refusal};
use crate::text::Text;
use crate::token::{Mark, Placed, Token};

/// The greatest number that a text may name.
const GREATEST_NUMBER: u32 = 9_999;

/// The most bytes of a name.
const LONGEST_NAME: usize = 32;

// The steps take the bytes and a place, and no pair of them: what one step answers is a place in the same bytes, which a pair would have to say again.

/// The place behind the run of bytes of the class that begins at `from`.
// A loop that counts by hand: by each iterator that was tried a text that is mostly blanks took over one and a half times as long to read.
fn run_end(text: &[u8], from: usize, class: Class) -> usize
    requires { from ≤ length text.now }
    ensures { Run (member class) text.now from result }
{
    let mut to = from;
    while to < text.len() && class.holds(text[to]) {
        to += 1;
    }
    to
}

/// The place behind the colon at `at`, or `at` where none stands there.
fn past_colon(text: &[u8], at: usize) -> usize
    requires { at ≤ length text.now }
    ensures { WithColon text.now at result }
{
    if text.get(at) == Some(&b':') {
        return at + 1;
    }
    at
}

/// The word that begins at `place`.
fn word_at<'a>(text: &'a [u8], place: usize) -> Placed<'a>
    requires within { place < length text.now }
    requires begins { letter (slice_index text.now place) ≡ true }
    ensures { Stands text.now place (found (Ok result)) }
{
    let next = past_colon(text, run_end(text, place, Class::Word));
    Placed {
        token: Token::Word(&text[place..next]),
        place,
        next,
    }
}

/// The number that digits write, or one above the greatest where theirs is above it.
// It goes no higher, so that any number of digits fits; whether it is too great is asked with the digits' plainness.
fn value_of(digits: &[u8]) -> u32
    requires { AllDigits digits.now }
    ensures { result ≡ min 10000 (value digits.now) }
{
    let mut n = 0;
    for d in digits {
        n = (n * 10 + u32::from(*d - b'0')).min(GREATEST_NUMBER + 1);
    }
    n
}

/// Whether digits that write `n` are not above the greatest number and have no needless leading 0.
fn is_plain(digits: &[u8], n: u32) -> bool
    requires { n ≡ min 10000 (value digits.now) }
    ensures { result ≡ plain digits.now }
{
    n <= GREATEST_NUMBER && (digits.len() <= 1 || digits[0] != b'0')
}

/// The number that begins at `place`, or the fault of one that is too great or has a needless 0.
fn number_at<'a>(text: &'a [u8], place: usize) -> Result<Placed<'a>, Fault>
    requires within { place < length text.now }
    requires begins { digit (slice_index text.now place) ≡ true }
    ensures { Stands text.now place (found result) }
{
    let next = run_end(text, place, Class::Digit);
    let digits = &text[place..next];
    let n = value_of(digits);
    if !is_plain(digits, n) {
        return Err(Refusal::BadNumber.at(place));
    }
    Ok(Placed {
        token: Token::Number(n),
        place,
        next,
    })
}

/// Whether the bytes of a name that begin at `from` end in a quote at `end`.
fn closes_name(text: &[u8], from: usize, end: usize) -> bool
    requires { (from ≤ end) × (end ≤ length text.now) }
    ensures { result ≡ closes text.now from end }
{
    end > from && end - from <= LONGEST_NAME && text.get(end) == Some(&b'"')
}

/// The name whose quote stands at `place`, or the fault of a quote that opens none.
fn name_at<'a>(text: &'a [u8], place: usize) -> Result<Placed<'a>, Fault>
    requires within { place < length text.now }
    requires begins { slice_index text.now place ≡ quote }
    ensures { Stands text.now place (found result) }
{
    let from = place + 1;
    let end = run_end(text, from, Class::Name);
    if !closes_name(text, from, end) {
        return Err(Refusal::BadByte.at(place));
    }
    Ok(Placed {
        token: Token::Name(&text[from..end]),
        place,
        next: end + 1,
    })
}

/// The token that begins at `place`, where no blank stands.
fn token_at<'a>(text: &'a [u8], place: usize) -> Result<Placed<'a>, Fault>
    requires { place ≤ length text.now }
    ensures { Stands text.now place (found result) }
{
    if place == text.len() {
        return Ok(Placed {
            token: Token::End,
            place,
            next: place,
        });
    }
    let b = text[place];
    if is_letter(b) {
        return Ok(word_at(text, place));
    }
    if is_digit(b) {
        return number_at(text, place);
    }
    if b == b'"' {
        return name_at(text, place);
    }
    let mark = Mark::try_from(b).map_err(|refusal| refusal.at(place))?;
    Ok(Placed {
        token: Token::Mark(mark),
        place,
        next: place + 1,
    })
}

/// The first token at or behind `from`, with its place.
fn scan_from<'a>(text: &'a [u8], from: usize) -> Result<Placed<'a>, Fault>
    requires { from ≤ length text.now }
    ensures scanned { Scanned text.now from (found result) }
    ensures ahead { Ahead text.now from (found result) }
{
    let place = run_end(text, from, Class::Blank);
    token_at(text, place)
}

impl<'a> Text<'a> {
    /// The first token at or behind a position, with its place; a position past the end counts as the end.
    pub fn scan(self, from: usize) -> Result<Placed<'a>, Fault>
        ensures scanned { Scanned self.entry.bytes.now (clipped self.entry.bytes.now from) (found result) }
        ensures ahead { Ahead self.entry.bytes.now (clipped self.entry.bytes.now from) (found result) }
    {
        let text = self.bytes;
        scan_from(text, from.min(text.len()))
    }
}

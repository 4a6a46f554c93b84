//! A text within the size limit.
ghost use Rattle.std.specs.Result.{MatchResult};
ghost use Rattle.hoa_tokens.specs.Scanning.{TextTaken, TextTooLong};

use crate::fault::{Fault, Refusal};

/// The most bytes that a text may have.
pub const LONGEST_TEXT: usize = 61_440;

/// A text that is not too long. Only `Text::new` makes one.
#[derive(Clone, Copy)]
pub struct Text<'a> {
    pub(crate) bytes: &'a [u8],
}

impl<'a> Text<'a> {
    /// The text of these bytes, or the fault of one above 61,440 bytes.
    pub fn new(bytes: &'a [u8]) -> Result<Text<'a>, Fault>
        ensures { MatchResult result (λ t. TextTaken bytes.now t.bytes.now) (TextTooLong bytes.now) }
    {
        if bytes.len() > LONGEST_TEXT {
            return Err(Refusal::TooLong.at(LONGEST_TEXT));
        }
        Ok(Text { bytes })
    }
}

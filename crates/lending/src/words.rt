//! Enough words, and words that are 0.
ghost use Rattle.std.specs.Prelude.{◌≡◌, length, replicate, MatchResult};
ghost use Rattle.lending.specs.Lending.{Enough, TooShort};

use tables::LenderRefusal;

/// Whether a strip and a work list of so many words are enough to search `n` states.
///
/// Refused, in this order: a strip of fewer than 4n + 4 words, and a work list of fewer than 8n words.
pub fn check_words(n: u32, strip: usize, work: usize) -> Result<(), LenderRefusal>
    ensures { MatchResult result (λ _. Enough n strip work) (TooShort n strip work) }
{
    let n = n as usize;
    if strip < 4 * n + 4 {
        return Err(LenderRefusal::ShortStrip);
    }
    if work < 8 * n {
        return Err(LenderRefusal::ShortWork);
    }
    Ok(())
}

/// Makes every word 0.
pub fn clear(words: &mut [u32])
    ensures { words.new ≡ replicate (length words.old) 0 }
{
    words.fill(0);
}

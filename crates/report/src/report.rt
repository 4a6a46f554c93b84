//! What the program says of a file.
ghost use Rattle.std.specs.Prelude.{◌≡◌, IfOk, vec_items, string_bytes};
ghost use Rattle.std.specs.Option.{option_map};
ghost use Rattle.report.specs.Lines.{complaint, line_of_no_token, TextReported, Reported};
ghost use Rattle.report.specs.Reports.{lines_of, is_sound};

use crate::listing::listing;
use crate::refusal::refused_line;
use crate::source::Source;
use hoa_tokens::{Fault, Refusal, Text};
use std::alloc::{AllocError, Global};

/// What is printed of a file.
// No Result: both are lines to print, and neither is an error of the call.
#[derive(Drop)]
pub enum Report {
    /// The lines of a text that is all tokens. The program goes on behind them.
    Listed(Vec<u8>),
    /// The line that says what is wrong. The program stops behind it.
    Refused(String),
}

impl Report {
    /// The bytes that are printed.
    pub fn lines(&self) -> &[u8]
        ensures { result.now ≡ lines_of self.now }
    {
        match self {
            Report::Listed(lines) => lines.as_slice(),
            Report::Refused(line) => line.as_bytes(),
        }
    }

    /// Whether the program goes on behind them.
    pub fn goes_on(&self) -> bool
        ensures { result ≡ is_sound self.now }
    {
        matches!(self, Report::Listed(_))
    }
}

/// What is wrong with a byte of a text.
// No Display of the refusal: it is the readers' type, and these words are this program's.
fn complaint_of(refusal: Refusal) -> &'static str
    ensures { result.now ≡ complaint refusal }
{
    match refusal {
        Refusal::BadByte => "begins no token",
        Refusal::BadNumber => "begins a number above 9999 or with a needless 0",
        Refusal::Unexpected => "begins what is not allowed there",
        Refusal::TooMany => "begins a number that is too great",
        Refusal::OutOfRange => "begins what there is not",
        Refusal::Repeated => "begins what was given before",
        Refusal::TooDeep => "is nested too deep",
        Refusal::TooLong => "is one too many",
        Refusal::Unreadable => "cannot be read",
    }
}

/// The line that says which byte of a text begins no token.
fn no_token_line(heap: Global, source: Source, fault: Fault) -> Result<String, AllocError>
    ensures { IfOk result (λ s. string_bytes s ≡ line_of_no_token source fault) }
{
    let place = fault.place;
    let complaint = complaint_of(fault.refusal);
    format!(in heap; "{source} byte {place} {complaint}\n")
}

/// What is said of a text that is not too long.
fn report_text(heap: Global, source: Source, text: Text<'_>) -> Result<Report, AllocError>
    ensures { IfOk result (λ x. TextReported source text.entry.bytes.now (lines_of x) (is_sound x)) }
{
    match text.count() {
        Ok(count) => {
            let heading = format!(in heap; "{source} {count} tokens\n")?;
            let mut lines = heading.into_bytes();
            let listed = listing(heap, text)?;
            lines.extend_from_slice(listed.as_slice())?;
            Ok(Report::Listed(lines))
        }
        Err(fault) => Ok(Report::Refused(no_token_line(heap, source, fault)?)),
    }
}

/// What is said of a file: of its bytes, or that it cannot be read.
pub fn report_file(
    heap: Global,
    source: Source,
    file: &Option<Vec<u8>>,
) -> Result<Report, AllocError>
    ensures { IfOk result (λ x. Reported source (option_map vec_items file.now) (lines_of x) (is_sound x)) }
{
    let Some(bytes) = file else {
        let fault = Refusal::Unreadable.at(0);
        return Ok(Report::Refused(refused_line(heap, source, fault)?));
    };
    match Text::new(bytes.as_slice()) {
        Ok(text) => report_text(heap, source, text),
        Err(fault) => Ok(Report::Refused(refused_line(heap, source, fault)?)),
    }
}

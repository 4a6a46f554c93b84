//! The two things that a text says.
ghost use Rattle.std.specs.Prelude.{◌≡◌, ◌≤◌, length, IfOk, MatchResult};
ghost use Rattle.tables.specs.Meanings.{draft_meaning};
ghost use Rattle.hoa_tokens.specs.Numbers.{longest_text};
ghost use Rattle.hoa_grammar.specs.Documents.{most_signals};
ghost use Rattle.hoa_document.specs.Denoting.{TextDenotes, TextNames, TextRefused, SaysOne};
ghost use Rattle.hoa_document.specs.Drafting.{HeaderRead};

use crate::body::read_body;
use crate::header::{Heading, read_header};
use crate::names::Names;
use hoa_tokens::{Fault, Read, Text};
use tables::Draft;

/// A text, and what its header says.
#[derive(Clone, Copy)]
struct Begun<'a> {
    text: Text<'a>,
    header: Read<'a, Heading<'a>>,
}

/// The text with its header read, if it is not too long.
fn begin(bytes: &[u8]) -> Result<Begun<'_>, Fault>
    ensures { MatchResult result (λ x. (x.text.bytes.now ≡ bytes.now) × (length bytes.now ≤ longest_text) × HeaderRead x.text.bytes.now x.header) (TextRefused bytes.now) }
{
    let text = Text::new(bytes)?;
    let header = read_header(text)?;
    Ok(Begun { text, header })
}

/// The table that the text's document denotes, as a draft; or why the text is refused.
pub fn read_draft(bytes: &[u8]) -> Result<Draft, Fault>
    ensures draft { MatchResult result (λ x. TextDenotes bytes.now (draft_meaning x)) (TextRefused bytes.now) }
    ensures one { SaysOne bytes.now }
{
    let begun = begin(bytes)?;
    read_body(begun.text, &begun.header)
}

/// The names of the text's document; or why the text is refused, for whatever fault.
#[tactic(auto, using(crate::proofs::Meant::writes_here))]
pub fn read_names(bytes: &[u8]) -> Result<Names<'_>, Fault>
    ensures names { MatchResult result (TextNames bytes.now) (TextRefused bytes.now) }
    ensures few { IfOk result (λ x. x.count ≤ most_signals) }
{
    let begun = begin(bytes)?;
    read_body(begun.text, &begun.header)?;
    Ok(begun.header.value.names)
}

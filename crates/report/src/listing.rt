//! The tokens of a text, a line each.
ghost use Rattle.std.specs.Prelude.{◌≡◌, ◌++◌, IfOk, Ok, codes};
ghost use Rattle.hoa_tokens.specs.Scanning.{found};
ghost use Rattle.report.specs.Lines.{found_line, Listing};

use hoa_tokens::{Placed, Text, Token};
use std::alloc::{AllocError, Global};

/// A line that begins with `head` and ends with `tail`.
fn line(heap: Global, head: &str, tail: &[u8]) -> Result<Vec<u8>, AllocError>
    ensures { IfOk result (λ v. v.items ≡ head.now ++ (tail.now ++ codes "\n")) }
{
    let mut bytes = Vec::from_slice(heap, head.as_bytes())?;
    bytes.extend_from_slice(tail)?;
    bytes.extend_from_slice(b"\n")?;
    Ok(bytes)
}

/// The line of a token: its place, its kind and its bytes.
fn token_line(heap: Global, t: Placed<'_>) -> Result<Vec<u8>, AllocError>
    ensures { IfOk result (λ v. v.items ≡ found_line (found (Ok t.entry))) }
{
    let place = t.place;
    match t.token {
        Token::Word(w) => {
            let head = format!(in heap; "{place} word ")?;
            line(heap, head.as_str(), w)
        }
        Token::Number(n) => {
            let head = format!(in heap; "{place} number {n}")?;
            line(heap, head.as_str(), b"")
        }
        Token::Name(w) => {
            let head = format!(in heap; "{place} name ")?;
            line(heap, head.as_str(), w)
        }
        Token::Mark(m) => {
            let head = format!(in heap; "{place} mark ")?;
            let sign = [u8::from(m)];
            line(heap, head.as_str(), &sign)
        }
        Token::End => {
            let head = format!(in heap; "{place} end")?;
            line(heap, head.as_str(), b"")
        }
    }
}

/// The lines of a text's tokens, up to its end or its first fault.
pub(crate) fn listing(heap: Global, text: Text<'_>) -> Result<Vec<u8>, AllocError>
    ensures { IfOk result (λ v. Listing text.entry.bytes.now v.items) }
{
    let mut lines = Vec::new(heap);
    let mut from = 0;
    loop {
        // A match and no let-else, since the proof names the fault that ends the list.
        let found = match text.scan(from) {
            Ok(found) => found,
            Err(_) => return Ok(lines),
        };
        let line = token_line(heap, found)?;
        lines.extend_from_slice(line.as_slice())?;
        if let Token::End = found.token {
            return Ok(lines);
        }
        from = found.next;
    }
}

//! The answer to a case.
ghost use Rattle.std.specs.Prelude.{◌≡◌, ◌++◌, IfOk, codes};
ghost use Rattle.conformance.specs.Lines.{text_of_refusal, Answered};

use crate::automata::automaton_text;
use crate::case::case_of;
use hoa_text::{ReadRefusal, read};
use std::alloc::{AllocError, Global};
use tables::Table;

/// The most cells that are lent.
const MOST_CELLS: usize = 4_097;

/// Why a text is not read: number, place and layer of its first fault, or the number alone for want of cells.
fn refusal_text(heap: Global, refusal: ReadRefusal) -> Result<Vec<u8>, AllocError>
    ensures { IfOk result (λ v. v.items ≡ text_of_refusal refusal) }
{
    let text = match refusal {
        ReadRefusal::Lender(lender) => {
            let number = u8::from(lender);
            format!(in heap; "refused {number}")?
        }
        ReadRefusal::Text(fault) => {
            let number = u8::from(fault.refusal);
            let place = fault.place;
            let layer = u8::from(fault.layer);
            format!(in heap; "refused {number} {place} {layer}")?
        }
    };
    Ok(text.into_bytes())
}

/// A line: a name and an answer.
fn line(heap: Global, name: &[u8], answer: &[u8]) -> Result<Vec<u8>, AllocError>
    ensures { IfOk result (λ v. v.items ≡ name.now ++ (codes " " ++ (answer.now ++ codes "\n"))) }
{
    let mut line = Vec::from_slice(heap, name)?;
    line.extend_from_slice(b" ")?;
    line.extend_from_slice(answer)?;
    line.extend_from_slice(b"\n")?;
    Ok(line)
}

/// The line that answers a line of the table: the automaton that its text denotes, or why the text is not read.
pub(crate) fn answer(heap: Global, written: &[u8]) -> Result<Vec<u8>, AllocError>
    ensures { IfOk result (λ v. Answered written.now v.items) }
{
    let case = case_of(heap, written)?;
    let mut cells = [9; MOST_CELLS];
    let lent = case.cells.min(MOST_CELLS);
    let mut table = Table::blank(&mut cells[0..lent]);
    // Each arm makes its line, since the proof of what the two have in common would take them apart again.
    match read(&mut table, case.text.as_slice()) {
        Ok(()) => {
            let text = automaton_text(heap, &table)?;
            line(heap, case.name, text.as_slice())
        }
        Err(refusal) => {
            let text = refusal_text(heap, refusal)?;
            line(heap, case.name, text.as_slice())
        }
    }
}

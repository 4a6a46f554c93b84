//! A case: one line of the table.
ghost use Rattle.conformance.specs.declared.escape.Escape.TheVariants.{Plain};
ghost use Rattle.conformance.specs.Escapes.{unescaped};
ghost use Rattle.std.specs.Prelude.{◌≡◌, IfOk};
ghost use Rattle.conformance.specs.Lines.{name_of, cells_of, text_of, padded_to};

use crate::escape::unescape;
use crate::field::{behind, front, number};
use std::alloc::{AllocError, Global};

/// What stands between the fields of a line.
const SPACE: u8 = b' ';

/// A case: its name, how many cells are lent to the reader, and the text.
#[derive(Drop)]
pub struct Case<'a> {
    pub name: &'a [u8],
    pub cells: usize,
    pub text: Vec<u8>,
}

/// The text that is written with escapes, with spaces at its end where it is shorter than `size`.
fn padded(heap: Global, written: &[u8], size: usize) -> Result<Vec<u8>, AllocError>
    ensures { IfOk result (λ v. v.items ≡ padded_to size (unescaped Plain written.now)) }
{
    let mut text = unescape(heap, written)?;
    let size = size.max(text.len());
    text.resize(size, SPACE)?;
    Ok(text)
}

/// The case of a line.
pub(crate) fn case_of<'a>(heap: Global, line: &'a [u8]) -> Result<Case<'a>, AllocError>
    ensures { IfOk result (λ x. (x.name.now ≡ name_of line.now) × (x.cells ≡ cells_of line.now) × (x.text.items ≡ text_of line.now)) }
{
    let name = front(line, SPACE);
    let behind_name = behind(line, SPACE);
    let cells = number(front(behind_name, SPACE));
    let behind_cells = behind(behind_name, SPACE);
    let size = number(front(behind_cells, SPACE));
    let text = padded(heap, behind(behind_cells, SPACE), size)?;
    Ok(Case { name, cells, text })
}

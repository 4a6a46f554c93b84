//! The line of a refused text.
ghost use Rattle.std.specs.Prelude.{◌≡◌, IfOk, string_bytes};
ghost use Rattle.report.specs.Lines.{line_of_refusal};

use crate::source::Source;
use hoa_tokens::Fault;
use std::alloc::{AllocError, Global};

/// The line that says that a text is refused: with number, place and layer.
pub fn refused_line(heap: Global, source: Source, fault: Fault) -> Result<String, AllocError>
    ensures { IfOk result (λ s. string_bytes s ≡ line_of_refusal source fault) }
{
    let number = u8::from(fault.refusal);
    let place = fault.place;
    let layer = u8::from(fault.layer);
    format!(in heap; "refused {source} {number} {place} {layer}\n")
}

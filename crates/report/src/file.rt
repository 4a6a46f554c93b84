//! The bytes of a file.
ghost use Rattle.std.specs.Prelude.{◌≡◌, ◌+◌, take, IfOk, IfSome, vec_items};
ghost use Rattle.hoa_tokens.specs.Numbers.{longest_text};

use hoa_tokens::LONGEST_TEXT;
use std::alloc::Global;
use std::io;
use std::io::Read;

/// What a reader has to give, up to so many bytes.
fn read_most<R: Read + Drop>(heap: Global, reader: R, most: u64) -> io::Result<Vec<u8>>
    ensures { IfOk result (λ v. IfSome (R.Read.remaining reader) (λ bytes. vec_items v ≡ take most bytes)) }
{
    let mut bytes = Vec::new(heap);
    reader.take(most).read_to_end(&mut bytes)?;
    Ok(bytes)
}

/// What a reader has to give, up to one byte past the longest text: enough to see that a text is too long.
pub fn read_text<R: Read + Drop>(heap: Global, reader: R) -> io::Result<Vec<u8>>
    ensures { IfOk result (λ v. IfSome (R.Read.remaining reader) (λ bytes. vec_items v ≡ take (longest_text + 1) bytes)) }
{
    read_most(heap, reader, LONGEST_TEXT as u64 + 1)
}

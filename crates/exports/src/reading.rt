//! Whether a text is read, by a number.
ghost use Rattle.std.specs.Prelude.{◌≡◌};
ghost use Rattle.exports.specs.Numbered.{answer_number, Numbered};

use hoa_text::{ReadRefusal, read};
use tables::{TABLE_CELLS, Table};

/// The number of an answer: 0 where the text was read, else that of the refusal.
// Other languages are answered by one number.
fn number_of(answer: Result<(), ReadRefusal>) -> u32
    ensures { result ≡ answer_number answer }
{
    match answer {
        Ok(()) => 0,
        Err(ReadRefusal::Lender(lender)) => u32::from(u8::from(lender)),
        Err(ReadRefusal::Text(fault)) => u32::from(u8::from(fault.refusal)),
    }
}

/// 0 where the text is read, else the number of the refusal.
#[unsafe(no_mangle)]
pub extern "C" fn zinniahoe_read(text: &[u8]) -> u32
    ensures { Numbered text.now result }
{
    let mut cells = [0; TABLE_CELLS];
    let mut table = Table::blank(&mut cells);
    let answer = read(&mut table, text);
    number_of(answer)
}

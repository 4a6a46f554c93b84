//! Reading a text into a table.
ghost use Rattle.std.specs.Prelude.{◌≡◌, ℕ, ◌<◌, List, length, MatchResult, OnErr};
ghost use Rattle.tables.specs.declared.refusal.LenderRefusal.TheVariants.{TooFewCells};
ghost use Rattle.tables.specs.Cells.{table_cells};
ghost use Rattle.tables.specs.Meanings.{draft_meaning, table_meaning};
ghost use Rattle.hoa_document.specs.Denoting.{TextDenotes, SaysOne};
ghost use Rattle.hoa_text.specs.Reading.{Unread, ToldOnce, CellsSet};

use crate::refusal::ReadRefusal;
use hoa_document::read_draft;
use tables::{Draft, LenderRefusal, Table};

/// Makes the table that of a draft, which is what a text denotes if the draft is; else the table and its cells stay as they were.
fn write(table: &mut Table<'_>, draft: &Draft) -> Result<(), LenderRefusal>
    ensures denotes { MatchResult result (λ _. ((text : List ℕ) → TextDenotes text (draft_meaning draft.now) → TextDenotes text (table_meaning table.new))) (λ e. (e ≡ TooFewCells) × (length table.old.cells.now < table_cells)) }
    ensures cells { MatchResult result (λ _. CellsSet table.new.frame.states table.old.cells.now table.new.cells.now) (λ _. table.new.cells.now ≡ table.old.cells.now) }
    ensures kept { OnErr result (table.new.frame ≡ table.old.frame) }
    ensures lender { table.new.cells.ghost_name ≡ table.old.cells.ghost_name }
{
    table.fill(draft)
}

/// Reads a text into a table: the table is then the one that the text's document denotes. Else the table and its cells stay as they were.
///
/// Refused, in this order: fewer than 4,096 cells, a text that is too long, and the text's first fault.
pub fn read(table: &mut Table<'_>, bytes: &[u8]) -> Result<(), ReadRefusal>
    ensures read { MatchResult result (λ _. TextDenotes bytes.now (table_meaning table.new)) (Unread bytes.now (length table.old.cells.now)) }
    ensures one { MatchResult result (λ _. SaysOne bytes.now) (ToldOnce bytes.now) }
    ensures cells { MatchResult result (λ _. CellsSet table.new.frame.states table.old.cells.now table.new.cells.now) (λ _. table.new.cells.now ≡ table.old.cells.now) }
    ensures kept { OnErr result (table.new.frame ≡ table.old.frame) }
    ensures lender { table.new.cells.ghost_name ≡ table.old.cells.ghost_name }
{
    table.check_room()?;
    let draft = read_draft(bytes)?;
    write(table, &draft)?;
    Ok(())
}

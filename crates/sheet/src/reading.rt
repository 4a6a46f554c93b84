//! Reading a sheet.
ghost use Rattle.std.specs.Prelude.{◌≡◌, [], length, MatchResult};
ghost use Rattle.hoa_text.specs.Reading.{Unread, CellsSet};
ghost use Rattle.sheet.specs.Sheets.{sheet_meaning, Unchanged};
ghost use Rattle.sheet.specs.Calls.{Reached};

use crate::sheet::Sheet;
use hoa_text::ReadRefusal;

impl Sheet<'_, '_> {
    /// Reads a text: the sheet is then the one that the text's document denotes, reached from this text by no calls, with count 0. Else it stays as it was.
    ///
    /// Refused, in this order: fewer than 4,096 cells, a text that is too long, and the text's first fault.
    pub fn read(&mut self, bytes: &[u8]) -> Result<(), ReadRefusal>
        ensures reached { MatchResult result (λ _. Reached bytes.now [] (sheet_meaning self.new) self.new.count) (Unread bytes.now (length self.old.table.now.cells.now)) }
        ensures cells { MatchResult result (λ _. CellsSet self.new.table.now.frame.states self.old.table.now.cells.now self.new.table.now.cells.now) (λ _. Unchanged self.old self.new) }
        ensures lender { (self.new.table.ghost_name ≡ self.old.table.ghost_name) × (self.new.table.now.cells.ghost_name ≡ self.old.table.now.cells.ghost_name) }
    {
        hoa_text::read(self.table, bytes)?;
        self.count = 0;
        Ok(())
    }
}

//! A table with a count of its edits.
ghost use Rattle.std.specs.Prelude.{◌≡◌};

use tables::Table;

/// A lent table with the count of accepted edits since the last accepted judge.
#[derive(Drop)]
pub struct Sheet<'a, 'b> {
    pub(crate) table: &'a mut Table<'b>,
    pub(crate) count: u32,
}

impl<'a, 'b> Sheet<'a, 'b> {
    /// A sheet of the table as it is, with count 0.
    pub fn over(table: &'a mut Table<'b>) -> Sheet<'a, 'b>
        ensures lends { (result.table.ghost_name ≡ table.entry.ghost_name) × (result.table.now ≡ table.old) }
        ensures count { result.count ≡ 0 }
    {
        Sheet { table, count: 0 }
    }
}

impl Sheet<'_, '_> {
    /// How many edits were accepted since the last accepted judge, or since reading.
    pub fn count(&self) -> u32
        ensures { result ≡ self.now.count }
    {
        self.count
    }
}

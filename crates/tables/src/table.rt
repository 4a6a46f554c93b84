//! An automaton over lent cells.
ghost use Rattle.std.specs.Prelude.{◌≡◌, ℕ, ◌*◌, ◌^◌, ◌<◌, ◌≤◌, length, take, drop, MatchResult, slice_index};
ghost use Rattle.tables.specs.declared.refusal.LenderRefusal.TheVariants.{TooFewCells};
ghost use Rattle.tables.specs.Cells.{table_cells};
ghost use Rattle.tables.specs.Frames.{IsWithinLimits};

use crate::draft::{Draft, TABLE_CELLS};
use crate::frame::Frame;
use crate::refusal::LenderRefusal;

/// An automaton of at most 64 states: bit a of cell s × states + t is 1 exactly for a step (s, a, t).
#[derive(Drop)]
pub struct Table<'a> {
    pub(crate) frame: Frame,
    pub(crate) cells: &'a mut [u16],
    ghost within: { IsWithinLimits frame },
    ghost room: { frame.states * frame.states ≤ length cells.now },
    ghost letters: { (k : ℕ) → k < frame.states * frame.states → slice_index cells.now k < 2 ^ (2 ^ frame.signals) },
}

impl<'a> Table<'a> {
    /// A table without states over any cells, which it leaves as they are.
    pub fn blank(cells: &'a mut [u16]) -> Table<'a>
        ensures lends { (result.cells.ghost_name ≡ cells.entry.ghost_name) × (result.cells.now ≡ cells.old) }
        ensures blank { (result.frame.states ≡ 0) × (result.frame.signals ≡ 0) × (result.frame.starts ≡ 0) × (result.frame.goods ≡ 0) }
    {
        Table {
            frame: Frame::blank(),
            cells,
        }
    }
}

impl Table<'_> {
    ghost use Rattle.omega.specs.Automata.{Lowest};
    ghost use Rattle.automaton.specs.Questions.{Within};
    ghost use Rattle.tables.specs.Meanings.{table_meaning};

    /// Whether there are cells enough to fill.
    pub fn check_room(&self) -> Result<(), LenderRefusal>
        ensures { MatchResult result (λ _. table_cells ≤ length self.now.cells.now) (λ e. (e ≡ TooFewCells) × (length self.now.cells.now < table_cells)) }
    {
        if self.cells.len() < TABLE_CELLS {
            return Err(LenderRefusal::TooFewCells);
        }
        Ok(())
    }

    /// Makes the table that of a draft: its cells are the first 4,096, and the cells behind them stay. Too few cells are refused, and nothing changes.
    pub fn fill(&mut self, draft: &Draft) -> Result<(), LenderRefusal>
        ensures lender { self.new.cells.ghost_name ≡ self.old.cells.ghost_name }
        ensures cells { MatchResult result (λ _. (table_cells ≤ length self.old.cells.now) × (take table_cells self.new.cells.now ≡ draft.now.cells) × (drop table_cells self.new.cells.now ≡ drop table_cells self.old.cells.now)) (λ e. (e ≡ TooFewCells) × (length self.old.cells.now < table_cells) × (self.new.cells.now ≡ self.old.cells.now)) }
        ensures frame { MatchResult result (λ _. self.new.frame ≡ draft.now.frame) (λ _. self.new.frame ≡ self.old.frame) }
    {
        self.check_room()?;
        // Without states meanwhile, since a cell may hold what is no letter for the signals that the table still has.
        self.frame = Frame::blank();
        self.cells[..TABLE_CELLS].copy_from_slice(&draft.cells);
        self.frame = draft.frame;
        Ok(())
    }

    /// The first state, from `f` on, whose cell in the row of the state `s` has the bit of the letter `a`.
    pub(crate) fn first_in_row(&self, s: u32, a: u32, f: u32) -> Option<u32>
        requires state { s < self.now.frame.states }
        requires letter { a < 2 ^ self.now.frame.signals }
        ensures is { Lowest ((table_meaning self.now).step s a) f result }
        ensures lands { Within self.now.frame.states result }
    {
        let n = self.frame.states;
        (f..n).find(|&t| (self.cells[(s * n + t) as usize] >> a) % 2 == 1)
    }
}

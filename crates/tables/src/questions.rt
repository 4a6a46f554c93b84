//! The five questions, asked of a table.
ghost use Rattle.omega.proofs.Soundness.{table_sound};
ghost use Rattle.tables.specs.Meanings.{table_meaning};

use crate::table::Table;
use automaton::Automaton;

impl Automaton for Table<'_> {
    ghost meaning = { table_meaning };

    ghost sound = { λ x. table_sound x.frame.states x.frame.signals x.frame.starts x.frame.goods x.cells.now x.within.few x.within.narrow x.within.starts_in x.within.goods_in x.letters };

    fn states(&self) -> u32 {
        self.frame.states
    }

    fn signals(&self) -> u32 {
        self.frame.signals
    }

    fn is_start(&self, s: u32) -> bool {
        self.frame.is_start(s)
    }

    fn is_good(&self, s: u32) -> bool {
        self.frame.is_good(s)
    }

    fn next(&self, s: u32, a: u32, f: u32) -> Option<u32> {
        if s >= self.frame.states || a >= 1 << self.frame.signals {
            return None;
        }
        self.first_in_row(s, a, f)
    }
}

//! A table in memory of its own, to which starts, good states and steps are added.
ghost use Rattle.std.specs.Prelude.{◌≡◌, ℕ, ◌-◌, ◌*◌, ◌^◌, ◌<◌, ◌≤◌, length, replicate, MatchOption, slice_index};
ghost use Rattle.omega.specs.Automata.{most_signals};
ghost use Rattle.tables.specs.Cells.{most_table_states, table_cells, StateAdded, StatesAdded, StepsAdded};
ghost use Rattle.tables.specs.Frames.{IsWithinLimits, SameButStarts, SameButGoods};

use crate::frame::Frame;

/// The cells of a table of 64 states.
pub const TABLE_CELLS: usize = 4_096;

/// A table of at most 64 states and 4 signals that holds its cells itself.
#[derive(Clone, Copy)]
pub struct Draft {
    pub(crate) frame: Frame,
    pub(crate) cells: [u16; TABLE_CELLS],
    ghost within: { IsWithinLimits frame },
    ghost letters: { (k : ℕ) → slice_index cells k < 2 ^ (2 ^ frame.signals) },
    ghost rest: { (k : ℕ) → frame.states * frame.states ≤ k → slice_index cells k ≡ 0 },
}

impl Draft {
    /// A draft without starts, good states and steps; none where there are more than 64 states or 4 signals.
    pub fn new(states: u32, signals: u32) -> Option<Draft>
        ensures { MatchOption result (states ≤ most_table_states → signals ≤ most_signals → ⊥) (λ x. (x.frame.states ≡ states) × (x.frame.signals ≡ signals) × (x.frame.starts ≡ 0) × (x.frame.goods ≡ 0) × (x.cells ≡ replicate table_cells 0)) }
    {
        let frame = Frame::new(states, signals)?;
        Some(Draft {
            frame,
            cells: [0; TABLE_CELLS],
        })
    }

    /// Makes `s` a start, if it is a state.
    pub fn add_start(&mut self, s: u32)
        ensures start { StateAdded self.old.frame.states s self.old.frame.starts self.new.frame.starts }
        ensures same { SameButStarts self.old.frame self.new.frame }
        ensures cells { self.new.cells ≡ self.old.cells }
    {
        self.frame.add_start(s);
    }

    /// Makes the states of a set starts; bits that are no state count for nothing.
    pub fn add_starts(&mut self, set: u64)
        ensures starts { StatesAdded self.old.frame.states set self.old.frame.starts self.new.frame.starts }
        ensures same { SameButStarts self.old.frame self.new.frame }
        ensures cells { self.new.cells ≡ self.old.cells }
    {
        self.frame.add_starts(set);
    }

    /// Makes `s` good, if it is a state.
    pub fn add_good(&mut self, s: u32)
        ensures good { StateAdded self.old.frame.states s self.old.frame.goods self.new.frame.goods }
        ensures same { SameButGoods self.old.frame self.new.frame }
        ensures cells { self.new.cells ≡ self.old.cells }
    {
        self.frame.add_good(s);
    }

    /// Adds a step from `s` to `t` by each letter whose bit is 1, if both are states; bits that are no letter count for nothing.
    pub fn add_steps(&mut self, s: u32, letters: u16, t: u32)
        ensures steps { StepsAdded self.old.frame.states self.old.frame.signals s letters t self.old.cells self.new.cells }
        ensures frame { self.new.frame ≡ self.old.frame }
    {
        let n = self.frame.states;
        if s >= n || t >= n {
            return;
        }
        let at = (s * n + t) as usize;
        self.cells[at] |= letters & all_letters(self.frame.signals);
    }
}

/// The set of all letters over some signals.
fn all_letters(signals: u32) -> u16
    requires { signals ≤ most_signals }
    ensures { result ≡ 2 ^ (2 ^ signals) - 1 }
{
    ((1u32 << (1u32 << signals)) - 1) as u16
}

//! What a table has besides its cells.
ghost use Rattle.std.specs.Prelude.{◌≡◌, ◌^◌, ◌<◌, ◌≤◌, MatchOption, IfSome};
ghost use Rattle.omega.specs.Automata.{most_signals};
ghost use Rattle.omega.specs.Signals.{bit};
ghost use Rattle.tables.specs.Frames.{IsWithinLimits, SameButStarts, SameButGoods};
ghost use Rattle.tables.specs.Cells.{most_table_states, StateAdded, StatesAdded};

use automaton::MOST_SIGNALS;

/// The most states of a table.
pub const MOST_TABLE_STATES: u32 = 64;

/// What a table has besides its cells: how many states and signals, and the sets of its starts and of its good states.
///
/// That these are within the limits is a fact of the table and of the draft that hold it.
// It is no ghost field of the frame: the kit refuses a table, which borrows its cells, in a pair when a part of it has one.
#[derive(Clone, Copy)]
pub struct Frame {
    pub(crate) states: u32,
    pub(crate) signals: u32,
    pub(crate) starts: u64,
    pub(crate) goods: u64,
}

impl Frame {
    /// A frame without states.
    pub(crate) fn blank() -> Frame
        ensures blank { (result.states ≡ 0) × (result.signals ≡ 0) × (result.starts ≡ 0) × (result.goods ≡ 0) }
        ensures within { IsWithinLimits result }
    {
        Frame {
            states: 0,
            signals: 0,
            starts: 0,
            goods: 0,
        }
    }

    /// A frame without starts and good states; none where there are more than 64 states or 4 signals.
    pub(crate) fn new(states: u32, signals: u32) -> Option<Frame>
        ensures new { MatchOption result (states ≤ most_table_states → signals ≤ most_signals → ⊥) (λ x. (x.states ≡ states) × (x.signals ≡ signals) × (x.starts ≡ 0) × (x.goods ≡ 0)) }
        ensures within { IfSome result IsWithinLimits }
    {
        if states > MOST_TABLE_STATES || signals > MOST_SIGNALS {
            return None;
        }
        Some(Frame {
            states,
            signals,
            starts: 0,
            goods: 0,
        })
    }

    /// Whether `s` is a start.
    pub(crate) fn is_start(&self, s: u32) -> bool
        ensures { result ≡ bit s self.now.starts }
    {
        has_state(self.starts, s)
    }

    /// Whether `s` is a good state.
    pub(crate) fn is_good(&self, s: u32) -> bool
        ensures { result ≡ bit s self.now.goods }
    {
        has_state(self.goods, s)
    }

    /// Makes `s` a start, if it is a state.
    pub(crate) fn add_start(&mut self, s: u32)
        requires { IsWithinLimits self.old }
        ensures start { StateAdded self.old.states s self.old.starts self.new.starts }
        ensures same { SameButStarts self.old self.new }
        ensures within { IsWithinLimits self.new }
    {
        self.starts = with_state(self.starts, s, self.states);
    }

    /// Makes the states of a set starts; bits that are no state count for nothing.
    pub(crate) fn add_starts(&mut self, set: u64)
        requires { IsWithinLimits self.old }
        ensures starts { StatesAdded self.old.states set self.old.starts self.new.starts }
        ensures same { SameButStarts self.old self.new }
        ensures within { IsWithinLimits self.new }
    {
        self.starts = with_states(self.starts, set, self.states);
    }

    /// Makes `s` good, if it is a state.
    pub(crate) fn add_good(&mut self, s: u32)
        requires { IsWithinLimits self.old }
        ensures good { StateAdded self.old.states s self.old.goods self.new.goods }
        ensures same { SameButGoods self.old self.new }
        ensures within { IsWithinLimits self.new }
    {
        self.goods = with_state(self.goods, s, self.states);
    }
}

/// Whether `s` is in a set of states.
fn has_state(set: u64, s: u32) -> bool
    ensures { result ≡ bit s set }
{
    s < u64::BITS && (set >> s) % 2 == 1
}

/// A set of some states, with `s` in it if it is one of them.
fn with_state(set: u64, s: u32, states: u32) -> u64
    requires few { states ≤ most_table_states }
    requires within { set < 2 ^ states }
    ensures added { StateAdded states s set result }
    ensures within { result < 2 ^ states }
{
    if s >= states {
        return set;
    }
    set | 1 << s
}

/// A set of some states, with those of them that are in `more`.
fn with_states(set: u64, more: u64, states: u32) -> u64
    requires few { states ≤ most_table_states }
    requires within { set < 2 ^ states }
    ensures added { StatesAdded states more set result }
    ensures within { result < 2 ^ states }
{
    if states == 0 {
        return set;
    }
    set | more & (u64::MAX >> (64 - states))
}

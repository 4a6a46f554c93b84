//! The counts of an automaton.

/// How many states, signals, starts, good states and steps there are.
#[derive(Clone, Copy, PartialEq, Eq, Debug)]
pub struct Census {
    pub states: u32,
    pub signals: u32,
    pub starts: u32,
    pub goods: u32,
    pub steps: u64,
}

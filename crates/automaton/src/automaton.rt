//! The five questions.
ghost use Rattle.std.specs.Prelude.{◌≡◌, ◌^◌, ◌≤◌};
ghost use Rattle.omega.specs.Automata.{Meaning, Sound, Lowest, most_states, most_signals};
ghost use Rattle.automaton.specs.Questions.{Within};
ghost use Rattle.automaton.specs.Successors.{targets, left};

use crate::stepping::Successors;

/// The most states that an automaton may have.
pub const MOST_STATES: u32 = 65_536;

/// The most signals that an automaton may have.
pub const MOST_SIGNALS: u32 = 4;

/// What is asked the five questions of a Büchi automaton.
///
/// An implementor gives a meaning, shows that it keeps the limits, and answers each question by it, for any number.
/// A question changes nothing.
pub trait Automaton {
    ghost meaning: { Self → Meaning };

    ghost sound: { (x : Self) → Sound (meaning x) };

    /// How many states there are.
    fn states(&self) -> u32
        ensures is { result ≡ (meaning self.now).states }
        ensures few { result ≤ most_states };

    /// How many signals a letter is made of.
    fn signals(&self) -> u32
        ensures is { result ≡ (meaning self.now).signals }
        ensures few { result ≤ most_signals };

    /// Whether a number is a start.
    fn is_start(&self, s: u32) -> bool
        ensures is { result ≡ (meaning self.now).start s };

    /// Whether a number is a good state.
    fn is_good(&self, s: u32) -> bool
        ensures is { result ≡ (meaning self.now).good s };

    /// The lowest state, not below `f`, to which a step leads from `s` by the letter `a`, or none.
    fn next(&self, s: u32, a: u32, f: u32) -> Option<u32>
        ensures is { Lowest ((meaning self.now).step s a) f result }
        ensures lands { Within (meaning self.now).states result };
}

/// How many letters an automaton has.
pub fn letters<A: Automaton>(automaton: &A) -> u32
    ensures is { result ≡ 2 ^ (A.Automaton.meaning automaton.now).signals }
    ensures few { result ≤ 2 ^ most_signals }
{
    1 << automaton.signals()
}

/// Whether a step leads from one state to another by a letter.
pub fn has_step<A: Automaton>(automaton: &A, s: u32, letter: u32, t: u32) -> bool
    ensures { result ≡ (A.Automaton.meaning automaton.now).step s letter t }
{
    automaton
        .next(s, letter, t)
        .is_some_and(|lowest| lowest == t)
}

/// The states to which steps lead from `s` by the letter, lowest first.
pub fn successors<A: Automaton>(automaton: &A, s: u32, letter: u32) -> Successors<'_, A>
    ensures { left A.Automaton.meaning result ≡ targets (A.Automaton.meaning automaton.now) s letter 0 }
{
    Successors::new(automaton, s, letter)
}

//! Letters that lead from one state to another.
ghost use Rattle.std.specs.Prelude.{ℕ, T};
ghost use Rattle.emptiness.specs.Parts.{Joining};

use automaton::{Automaton, has_step, letters};

/// A letter by which a step leads from `s` to `t`, or none.
pub(crate) fn letter_between<A: Automaton>(automaton: &A, s: u32, t: u32) -> Option<u32>
    ensures { Joining (A.Automaton.meaning automaton.now) s t result }
{
    (0..letters(automaton)).find(|letter| has_step(automaton, s, *letter, t))
}

/// A letter by which a step leads from `s` to `t`, where one does.
pub(crate) fn letter_of<A: Automaton>(automaton: &A, s: u32, t: u32) -> u32
    requires { (a : ℕ) × T ((A.Automaton.meaning automaton.now).step s a t) }
    ensures { T ((A.Automaton.meaning automaton.now).step s result t) }
{
    letter_between(automaton, s, t).unwrap()
}

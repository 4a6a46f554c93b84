//! Shortest paths from a state back to itself.
ghost use Rattle.std.specs.Prelude.{◌<◌, ◌≤◌, IsTrue, ◌↔◌};
ghost use Rattle.omega.specs.Automata.{most_states};
ghost use Rattle.emptiness.specs.Parts.{Wide, AtMost, Returns};

use crate::breadth::Search;
use crate::letters::letter_between;
use automaton::Automaton;

/// Whether there is a number, and it is at most `m`.
pub(crate) fn is_at_most(number: Option<u32>, m: u32) -> bool
    ensures { IsTrue result ↔ AtMost number m }
{
    number.is_some_and(|k| k <= m)
}

/// The last state of a shortest path from `g` back to `g`, if that path behind a stem of so many steps takes fewer than `best` steps.
pub(crate) fn last_of_return<A: Automaton>(
    automaton: &A,
    g: u32,
    stem: u32,
    best: Option<u32>,
    back: &mut Search,
) -> Option<u32>
    requires wide { Wide (A.Automaton.meaning automaton.now) back.old }
    requires state { g < (A.Automaton.meaning automaton.now).states }
    requires stem { stem ≤ most_states }
    ensures returns { Returns (A.Automaton.meaning automaton.now) g stem best back.new result }
    ensures wide { Wide (A.Automaton.meaning automaton.now) back.new }
{
    back.begin_at(automaton, g);
    while back.head < back.end {
        let t = back.queue[back.head as usize];
        if is_at_most(best, stem + back.distance[t as usize]) {
            return None;
        }
        if letter_between(automaton, t, g).is_some() {
            return Some(t);
        }
        back.visit(automaton);
    }
    None
}

//! Counting by questions.
ghost use Rattle.std.specs.Prelude.{◌≡◌, ◌*◌, ◌≤◌};
ghost use Rattle.omega.specs.Automata.{most_states};
ghost use Rattle.census.specs.Counts.{tally, steps_by, steps_from, steps_of, Counted};

use crate::census::Census;
use automaton::{Automaton, letters, successors};

/// How many starts and how many good states there are.
fn count_states<A: Automaton>(automaton: &A) -> (u32, u32)
    ensures starts { result.0 ≡ tally (A.Automaton.meaning automaton.now).start (A.Automaton.meaning automaton.now).states }
    ensures goods { result.1 ≡ tally (A.Automaton.meaning automaton.now).good (A.Automaton.meaning automaton.now).states }
{
    let states = automaton.states();
    let starts = (0..states).filter(|s| automaton.is_start(*s)).count();
    let goods = (0..states).filter(|s| automaton.is_good(*s)).count();
    (starts as u32, goods as u32)
}

/// How many steps lead out of a state by a letter.
fn count_by<A: Automaton>(automaton: &A, s: u32, letter: u32) -> u32
    ensures is { result ≡ steps_by (A.Automaton.meaning automaton.now) s letter }
    ensures few { result ≤ most_states }
{
    successors(automaton, s, letter).count() as u32
}

/// How many steps lead out of a state.
fn count_from<A: Automaton>(automaton: &A, s: u32) -> u32
    ensures is { result ≡ steps_from (A.Automaton.meaning automaton.now) s }
    ensures few { result ≤ most_states * 16 }
{
    (0..letters(automaton))
        .map(|letter| count_by(automaton, s, letter))
        .sum()
}

/// How many steps there are.
fn count_steps<A: Automaton>(automaton: &A) -> u64
    ensures { result ≡ steps_of (A.Automaton.meaning automaton.now) }
{
    (0..automaton.states())
        .map(|s| u64::from(count_from(automaton, s)))
        .sum()
}

/// The counts of an automaton.
pub fn take_census<A: Automaton>(automaton: &A) -> Census
    ensures { Counted (A.Automaton.meaning automaton.now) result }
{
    let (starts, goods) = count_states(automaton);
    Census {
        states: automaton.states(),
        signals: automaton.signals(),
        starts,
        goods,
        steps: count_steps(automaton),
    }
}

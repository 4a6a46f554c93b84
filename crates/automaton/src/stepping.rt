//! The states to which steps lead.
ghost use Rattle.std.specs.Prelude.{◌≡◌, ◌-◌};
ghost use Rattle.std.specs.Iterator.{at_most};

use crate::automaton::Automaton;

/// The states to which steps lead from a state by a letter, lowest first.
#[derive(Drop)]
pub struct Successors<'a, A> {
    automaton: &'a A,
    state: u32,
    letter: u32,
    from: u32,
}

impl<'a, A: Automaton> Successors<'a, A> {
    ghost use Rattle.automaton.specs.Successors.{targets, left};

    /// The states to which steps lead from `state` by the letter.
    pub(crate) fn new(automaton: &'a A, state: u32, letter: u32) -> Successors<'a, A>
        ensures { left A.Automaton.meaning result ≡ targets (A.Automaton.meaning automaton.now) state letter 0 }
    {
        Successors {
            automaton,
            state,
            letter,
            from: 0,
        }
    }
}

impl<A: Automaton> Iterator for Successors<'_, A> {
    ghost use Rattle.automaton.specs.Successors.{GivesLowest};

    type Item = u32;

    ghost next_gives = { GivesLowest A.Automaton.meaning };

    ghost remaining = { λ x. at_most ((A.Automaton.meaning x.automaton.now).states - x.from) };

    fn next(&mut self) -> Option<u32> {
        let t = self.automaton.next(self.state, self.letter, self.from)?;
        self.from = t + 1;
        Some(t)
    }
}

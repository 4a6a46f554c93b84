//! Breadth-first search.
ghost use Rattle.std.specs.Prelude.{◌≡◌, ℕ, ◌+◌, ◌*◌, ◌<◌, ◌≤◌, T, ◌↔◌, length, take};
ghost use Rattle.omega.specs.Automata.{most_states};
ghost use Rattle.distances.specs.Trees.{at, Extends};
ghost use Rattle.emptiness.specs.Parts.{Wide, Searching, Visiting, HasRoom, Reaching, cleared, pushed, with_source};

use automaton::{Automaton, letters, successors};

/// A breadth-first search: the queue's states before `end` are reached, and those before `head` are done with.
///
/// A distance word is 1 more than the distance of its state, and 0 where that is not reached.
// The lists are parts of one lent list of words, so they hold no pairs and no options. That they are wide enough is said in clauses, since it is so for one automaton, which a search does not hold.
#[derive(Drop)]
pub(crate) struct Search<'w> {
    pub(crate) distance: &'w mut [u32],
    pub(crate) parent: &'w mut [u32],
    pub(crate) queue: &'w mut [u32],
    pub(crate) head: u32,
    pub(crate) end: u32,
}

impl<'w> Search<'w> {
    /// A search over `n` states in the first 3n words, and the words behind them.
    pub(crate) fn over(n: usize, words: &'w mut [u32]) -> (Search<'w>, &'w mut [u32])
        requires { 3 * n ≤ length words.old }
        ensures distances { length result.0.distance.now ≡ n }
        ensures parents { length result.0.parent.now ≡ n }
        ensures places { length result.0.queue.now ≡ n }
        ensures rest { length result.1.now + 3 * n ≡ length words.old }
    {
        let (distance, rest) = words.split_at_mut(n);
        let (parent, rest) = rest.split_at_mut(n);
        let (queue, rest) = rest.split_at_mut(n);
        let search = Search {
            distance,
            parent,
            queue,
            head: 0,
            end: 0,
        };
        (search, rest)
    }
}

impl Search<'_> {
    /// Forgets what is reached.
    fn clear(&mut self)
        ensures { self.new ≡ cleared self.old }
    {
        self.distance.fill(0);
        self.head = 0;
        self.end = 0;
    }

    /// Reaches a source.
    fn add_source(&mut self, s: u32)
        requires state { s < length self.old.distance.now }
        requires place { self.old.end < length self.old.queue.now }
        requires few { self.old.end ≤ most_states }
        ensures { self.new ≡ with_source self.old s }
    {
        self.distance[s as usize] = 1;
        self.push(s);
    }

    /// Reaches `t`, a successor of `s`, unless it was reached before.
    fn reach(&mut self, s: u32, t: u32)
        requires { HasRoom self.old s t }
        ensures { Reaching self.old s t self.new }
    {
        if self.distance[t as usize] > 0 {
            return;
        }
        self.distance[t as usize] = self.distance[s as usize] + 1;
        self.parent[t as usize] = s;
        self.push(t);
    }

    /// Puts a state at the queue's end.
    fn push(&mut self, t: u32)
        requires place { self.old.end < length self.old.queue.now }
        requires few { self.old.end ≤ most_states }
        ensures { self.new ≡ pushed self.old t }
    {
        self.queue[self.end as usize] = t;
        self.end += 1;
    }

    /// Reaches every successor, by the letter, of the queue's head.
    fn visit_by<A: Automaton>(&mut self, automaton: &A, letter: u32)
        requires searching { Searching (A.Automaton.meaning automaton.now) self.old }
        requires some { self.old.head < self.old.end }
        ensures visiting { Visiting (A.Automaton.meaning automaton.now) self.old self.new }
        ensures head { self.new.head ≡ self.old.head }
        ensures all { (t : ℕ) → T ((A.Automaton.meaning automaton.now).step (at self.old.queue.now self.old.head) letter t) → 0 < at self.new.distance.now t }
    {
        let s = self.queue[self.head as usize];
        for t in successors(automaton, s, letter) {
            self.reach(s, t);
        }
    }

    /// Reaches every successor of the queue's head, and passes on to the next.
    pub(crate) fn visit<A: Automaton>(&mut self, automaton: &A)
        requires searching { Searching (A.Automaton.meaning automaton.now) self.old }
        requires some { self.old.head < self.old.end }
        ensures visiting { Visiting (A.Automaton.meaning automaton.now) self.old self.new }
        ensures head { self.new.head ≡ self.old.head + 1 }
    {
        for letter in 0..letters(automaton) {
            self.visit_by(automaton, letter);
        }
        self.head += 1;
    }

    /// Reaches every state that has a path from the sources in the queue.
    pub(crate) fn spread<A: Automaton>(&mut self, automaton: &A)
        requires { Searching (A.Automaton.meaning automaton.now) self.old }
        ensures searching { Searching (A.Automaton.meaning automaton.now) self.new }
        ensures all { self.new.head ≡ self.new.end }
        ensures extends { Extends self.old.distance.now self.new.distance.now }
    {
        while self.head < self.end {
            self.visit(automaton);
        }
    }

    /// The states that are reached, in order of distance.
    pub(crate) fn reached(&self) -> &[u32]
        requires { self.now.end ≤ length self.now.queue.now }
        ensures { result.now ≡ take self.now.end self.now.queue.now }
    {
        let end = self.end as usize;
        &self.queue[..end]
    }

    /// Begins a search at one state.
    pub(crate) fn begin_at<A: Automaton>(&mut self, automaton: &A, g: u32)
        requires wide { Wide (A.Automaton.meaning automaton.now) self.old }
        requires state { g < (A.Automaton.meaning automaton.now).states }
        ensures searching { Searching (A.Automaton.meaning automaton.now) self.new }
        ensures first { (self.new.head ≡ 0) × (self.new.end ≡ 1) }
        ensures source { (s : ℕ) → (at self.new.distance.now s ≡ 1) ↔ (s ≡ g) }
    {
        self.clear();
        self.add_source(g);
    }

    /// Begins a search at the starts.
    pub(crate) fn begin_at_starts<A: Automaton>(&mut self, automaton: &A)
        requires { Wide (A.Automaton.meaning automaton.now) self.old }
        ensures searching { Searching (A.Automaton.meaning automaton.now) self.new }
        ensures starts { (s : ℕ) → (at self.new.distance.now s ≡ 1) ↔ T ((A.Automaton.meaning automaton.now).start s) }
    {
        self.clear();
        for s in 0..automaton.states() {
            if automaton.is_start(s) {
                self.add_source(s);
            }
        }
    }
}

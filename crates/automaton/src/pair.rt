//! The pair of two automata, which accepts what both accept.
ghost use Rattle.std.specs.Prelude.{◌≡◌, ◌+◌, ◌*◌, ◌/◌, ◌^◌, ◌<◌, ◌≤◌, Some, MatchOption, MatchResult};
ghost use Rattle.omega.specs.Automata.{Lowest, most_states};
ghost use Rattle.omega.specs.Pairs.{turned};
ghost use Rattle.omega.specs.Cached.{usable, cached};
ghost use Rattle.omega.specs.Places.{place, NoneInRow};
ghost use Rattle.omega.proofs.Caching.{cached_sound};
ghost use Rattle.automaton.specs.Questions.{Within};
ghost use Rattle.automaton.specs.Parts.{Paired, Unfit};

use crate::automaton::{Automaton, MOST_STATES, has_step};
use crate::refusal::PartsRefusal;

/// Two automata side by side on one word.
///
/// State (u, v, c) has the number (u × columns + v) × 2 + c, where c is 1 while the second part is waited for.
// That the parts fit stands in no ghost field: with one, every type that keeps a pair would have to bound its parts, and a generic struct could not keep a pair of a pair.
// So the two numbers are clipped where they are used.
#[derive(Drop)]
pub struct Pair<'a, 'b, A, B> {
    first: &'a A,
    second: &'b B,
    states: u32,
    columns: u32,
}

impl<'a, 'b, A: Automaton, B: Automaton> Pair<'a, 'b, A, B> {
    /// The pair of two automata; refused where their signals differ, and else where it would have more than 65,536 states.
    pub fn new(first: &'a A, second: &'b B) -> Result<Pair<'a, 'b, A, B>, PartsRefusal>
        ensures { MatchResult result (λ x. Paired (A.Automaton.meaning first.now) (B.Automaton.meaning second.now) (cached x.states x.columns (A.Automaton.meaning x.first.now) (B.Automaton.meaning x.second.now))) (Unfit (A.Automaton.meaning first.now) (B.Automaton.meaning second.now)) }
    {
        if first.signals() != second.signals() {
            return Err(PartsRefusal::SignalsDiffer);
        }
        let columns = second.states();
        let states = u64::from(first.states()) * u64::from(columns) * 2;
        if states > u64::from(MOST_STATES) {
            return Err(PartsRefusal::TooManyStates);
        }
        Ok(Pair::of(first, second, states as u32, columns))
    }

    /// The pair of parts that fit, whose states and columns are these.
    fn of(first: &'a A, second: &'b B, states: u32, columns: u32) -> Pair<'a, 'b, A, B>
        requires signals { (A.Automaton.meaning first.now).signals ≡ (B.Automaton.meaning second.now).signals }
        requires states { states ≡ (A.Automaton.meaning first.now).states * (B.Automaton.meaning second.now).states * 2 }
        requires columns { columns ≡ (B.Automaton.meaning second.now).states }
        requires fit { states ≤ most_states }
        ensures { Paired (A.Automaton.meaning first.now) (B.Automaton.meaning second.now) (cached result.states result.columns (A.Automaton.meaning result.first.now) (B.Automaton.meaning result.second.now)) }
    {
        Pair {
            first,
            second,
            states,
            columns,
        }
    }

    /// How many states there are: those that were counted when the pair was made.
    fn size(&self) -> u32
        ensures { result ≡ usable self.now.states self.now.columns }
    {
        if self.columns == 0 {
            return 0;
        }
        self.states.min(MOST_STATES)
    }

    /// Whether the second part is waited for behind a step out of (u, v, c): that turns if the state that is left, of the part that is waited for, is good.
    fn switched(&self, u: u32, v: u32, c: bool) -> bool
        ensures { result ≡ turned c ((A.Automaton.meaning self.now.first.now).good u) ((B.Automaton.meaning self.now.second.now).good v) }
    {
        if c {
            !self.second.is_good(v)
        } else {
            self.first.is_good(u)
        }
    }

    /// The lowest column, not below that of the place `g`, in the row of `g`, if both parts step there.
    fn next_in_row(&self, u: u32, v: u32, a: u32, g: u32) -> Option<u32>
        requires { 0 < self.now.columns }
        ensures { MatchOption result (NoneInRow ((A.Automaton.meaning self.now.first.now).step u a) ((B.Automaton.meaning self.now.second.now).step v a) self.now.columns g) (λ q. (q < self.now.columns) × Lowest (place ((A.Automaton.meaning self.now.first.now).step u a) ((B.Automaton.meaning self.now.second.now).step v a) self.now.columns) g (Some (g / self.now.columns * self.now.columns + q))) }
    {
        let row = g / self.columns;
        if !has_step(self.first, u, a, row) {
            return None;
        }
        let q = self.second.next(v, a, g % self.columns)?;
        if q < self.columns { Some(q) } else { None }
    }

    /// The lowest place, not below `g`, to whose row and column the two parts step from `u` and `v`.
    fn next_place(&self, u: u32, v: u32, a: u32, g: u32) -> Option<u64>
        requires wide { 0 < self.now.columns }
        requires low { g ≤ 2 ^ 31 }
        ensures is { Lowest (place ((A.Automaton.meaning self.now.first.now).step u a) ((B.Automaton.meaning self.now.second.now).step v a) self.now.columns) g result }
        ensures small { Within (2 ^ 49) result }
    {
        let w = self.columns;
        let row = g / w;
        if let Some(q) = self.next_in_row(u, v, a, g) {
            return Some(u64::from(row) * u64::from(w) + u64::from(q));
        }
        let p = self.first.next(u, a, row + 1)?;
        let q = self.second.next(v, a, 0)?;
        if q < w {
            Some(u64::from(p) * u64::from(w) + u64::from(q))
        } else {
            None
        }
    }
}

impl<A: Automaton, B: Automaton> Automaton for Pair<'_, '_, A, B> {
    ghost meaning = { λ x. cached x.states x.columns (A.Automaton.meaning x.first.now) (B.Automaton.meaning x.second.now) };

    ghost sound = { λ x. cached_sound x.states x.columns (A.Automaton.meaning x.first.now) (B.Automaton.meaning x.second.now) (A.Automaton.sound x.first.now) };

    fn states(&self) -> u32 {
        self.size()
    }

    fn signals(&self) -> u32 {
        self.first.signals()
    }

    fn is_start(&self, s: u32) -> bool {
        let w = self.columns;
        s < self.size()
            && s % 2 != 1
            && self.first.is_start(s / 2 / w)
            && self.second.is_start(s / 2 % w)
    }

    fn is_good(&self, s: u32) -> bool {
        s < self.size() && s % 2 == 1 && self.second.is_good(s / 2 % self.columns)
    }

    fn next(&self, s: u32, a: u32, f: u32) -> Option<u32> {
        let n = self.size();
        if s >= n {
            return None;
        }
        let u = s / 2 / self.columns;
        let v = s / 2 % self.columns;
        let c = self.switched(u, v, s % 2 == 1);
        let g = if c { f / 2 } else { f / 2 + f % 2 };
        let k = self.next_place(u, v, a, g)?;
        let t = k * 2 + u64::from(c);
        if t < u64::from(n) {
            Some(t as u32)
        } else {
            None
        }
    }
}

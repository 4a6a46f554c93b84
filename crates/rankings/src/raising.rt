//! Ranks that are raised until they make the least ranking, or until one of them shows a lasso.
ghost use Rattle.std.specs.Prelude.{◌≡◌, ℕ, ◌+◌, ◌<◌, ◌≤◌, false, T, ◌≢◌, ◌↔◌, length, slice_index};
ghost use Rattle.omega.specs.Automata.{most_states};
ghost use Rattle.omega.specs.Lassos.{SomeLasso};
ghost use Rattle.evidence.specs.Strips.{outside};
ghost use Rattle.relaxing.specs.Rounds.{Inside, Forced, rank_at_first, MetBy, MetFrom, Relaxed, Risen, TooHigh, AllLow};
ghost use Rattle.rankings.specs.Ranks.{Settled};

use automaton::{Automaton, letters, successors};
use evidence::OUTSIDE;

/// Leaves ranks that no step asks to raise, and answers whether they make a ranking, which is then the least; if not, there is a lasso.
pub(crate) fn rank_states<A: Automaton>(automaton: &A, ranks: &mut [u32]) -> bool
    requires { length ranks.old ≡ (A.Automaton.meaning automaton.now).states }
    ensures settled { T result → Settled (A.Automaton.meaning automaton.now) ranks.new }
    ensures lasso { result ≡ false → SomeLasso (A.Automaton.meaning automaton.now) }
{
    place_starts(automaton, ranks);
    settle(automaton, ranks);
    are_low(ranks)
}

/// Ranks each start 0, and puts the other states outside.
fn place_starts<A: Automaton>(automaton: &A, ranks: &mut [u32])
    requires { length ranks.old ≡ (A.Automaton.meaning automaton.now).states }
    ensures { (s : ℕ) → s < length ranks.new → slice_index ranks.new s ≡ rank_at_first ((A.Automaton.meaning automaton.now).start s) }
{
    for (s, rank) in ranks.iter_mut().enumerate() {
        *rank = first_rank(automaton.is_start(s as u32));
    }
}

/// The rank of a state before any rank is raised.
fn first_rank(start: bool) -> u32
    ensures { result ≡ rank_at_first start }
{
    if start { 0 } else { OUTSIDE }
}

// The automaton and the ranks stay two parameters: were they one struct, each clause would have to say that its automaton and its loan stay.

/// Raises ranks round by round until no step asks for more.
fn settle<A: Automaton>(automaton: &A, ranks: &mut [u32])
    requires { Forced (A.Automaton.meaning automaton.now) ranks.old }
    ensures forced { Forced (A.Automaton.meaning automaton.now) ranks.new }
    ensures met { (s : ℕ) → MetFrom (A.Automaton.meaning automaton.now) ranks.new s }
{
    while relax_all(automaton, ranks) {}
}

/// Raises ranks by every step from every state inside, once, and answers whether one changed.
fn relax_all<A: Automaton>(automaton: &A, ranks: &mut [u32]) -> bool
    requires { Forced (A.Automaton.meaning automaton.now) ranks.old }
    ensures risen { Risen (A.Automaton.meaning automaton.now) ranks.old ranks.new result }
    ensures met { result ≡ false → (s : ℕ) → MetFrom (A.Automaton.meaning automaton.now) ranks.new s }
{
    let mut changed = false;
    for s in 0..automaton.states() {
        changed |= relax_from(automaton, ranks, s);
    }
    changed
}

/// Raises ranks by every step from a state, if it is inside, and answers whether one changed.
fn relax_from<A: Automaton>(automaton: &A, ranks: &mut [u32], s: u32) -> bool
    requires forced { Forced (A.Automaton.meaning automaton.now) ranks.old }
    requires state { s < length ranks.old }
    ensures risen { Risen (A.Automaton.meaning automaton.now) ranks.old ranks.new result }
    ensures met { result ≡ false → MetFrom (A.Automaton.meaning automaton.now) ranks.new s }
{
    if ranks[s as usize] == OUTSIDE {
        return false;
    }
    relax_letters(automaton, ranks, s)
}

/// Raises ranks by every step from a state inside, and answers whether one changed.
fn relax_letters<A: Automaton>(automaton: &A, ranks: &mut [u32], s: u32) -> bool
    requires forced { Forced (A.Automaton.meaning automaton.now) ranks.old }
    requires inside { Inside ranks.old s }
    ensures risen { Risen (A.Automaton.meaning automaton.now) ranks.old ranks.new result }
    ensures met { result ≡ false → (a : ℕ) → MetBy (A.Automaton.meaning automaton.now) ranks.new s a }
{
    let mut changed = false;
    for letter in 0..letters(automaton) {
        changed |= relax_by(automaton, ranks, s, letter);
    }
    changed
}

/// Raises ranks by every step from a state inside by a letter, and answers whether one changed.
fn relax_by<A: Automaton>(automaton: &A, ranks: &mut [u32], s: u32, letter: u32) -> bool
    requires forced { Forced (A.Automaton.meaning automaton.now) ranks.old }
    requires inside { Inside ranks.old s }
    ensures risen { Risen (A.Automaton.meaning automaton.now) ranks.old ranks.new result }
    ensures met { result ≡ false → MetBy (A.Automaton.meaning automaton.now) ranks.new s letter }
{
    let good = automaton.is_good(s);
    let mut changed = false;
    for t in successors(automaton, s, letter) {
        changed |= relax_step(ranks, good, s, t);
    }
    changed
}

/// Brings `t` inside or raises the rank of `s`, good or not, if a step from `s` to `t` asks for it, and answers whether a rank changed.
///
/// A rank above the number of states already shows a lasso, so nothing is asked for its sake.
fn relax_step(ranks: &mut [u32], good: bool, s: u32, t: u32) -> bool
    requires few { length ranks.old ≤ most_states }
    requires from { s < length ranks.old }
    requires to { t < length ranks.old }
    ensures { Relaxed (length ranks.old) good s t ranks.old ranks.new result }
{
    let to = ranks[t as usize];
    if to == OUTSIDE {
        ranks[t as usize] = 0;
        return true;
    }
    if to as usize > ranks.len() {
        return false;
    }
    let asked = to + u32::from(good);
    if asked <= ranks[s as usize] {
        return false;
    }
    ranks[s as usize] = asked;
    true
}

/// Whether no rank is above the number of states.
fn are_low(ranks: &[u32]) -> bool
    requires few { length ranks.now ≤ most_states }
    ensures low { T result → AllLow (length ranks.now) ranks.now }
    ensures high { result ≡ false → TooHigh (length ranks.now) ranks.now }
{
    !ranks.iter().any(|rank| is_high(*rank, ranks.len()))
}

/// Whether a rank is that of a state inside, and above `n`.
fn is_high(rank: u32, n: usize) -> bool
    ensures { T result ↔ ((rank ≢ outside) × (n < rank)) }
{
    rank != OUTSIDE && rank as usize > n
}

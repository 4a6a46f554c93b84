//! A lasso of fewest steps.
ghost use Rattle.std.specs.Prelude.{◌≡◌, ℕ, ◌+◌, ◌*◌, ◌<◌, ◌≤◌, T, ◌↔◌, length, replicate, MatchOption, MatchResult, OnErr, OnOk};
ghost use Rattle.omega.specs.Lassos.{SomeLasso};
ghost use Rattle.distances.specs.Trees.{at};
ghost use Rattle.lending.specs.Lending.{Enough, TooShort, strip_words, work_words};
ghost use Rattle.emptiness.specs.Searching.{ShortestFound};
ghost use Rattle.emptiness.specs.Parts.{Wide, FromStarts, TellsShortest, TellsBest, NoShorter, NoWorse};

use crate::breadth::Search;
use crate::returning::{is_at_most, last_of_return};
use crate::telling::tell_lasso;
use automaton::Automaton;
use evidence::Verdict;
use lending::{check_words, clear};
use tables::LenderRefusal;

/// Finds a lasso of fewest steps and leaves it in the strip; or says that the automaton has none.
///
/// Refused, in this order: a strip of fewer than 4n + 4 words, and a work list of fewer than 8n words, for n states; nothing changes then.
pub fn shortest_lasso<A: Automaton>(
    automaton: &A,
    strip: &mut [u32],
    work: &mut [u32],
) -> Result<Verdict, LenderRefusal>
    ensures found { MatchResult result (ShortestFound (A.Automaton.meaning automaton.now) strip.new) (TooShort (A.Automaton.meaning automaton.now).states (length strip.old) (length work.old)) }
    ensures room { OnOk result (Enough (A.Automaton.meaning automaton.now).states (length strip.old) (length work.old)) }
    ensures strip { OnErr result (strip.new ≡ strip.old) }
    ensures work { MatchResult result (λ _. work.new ≡ replicate (length work.old) 0) (λ _. work.new ≡ work.old) }
{
    check_words(automaton.states(), strip.len(), work.len())?;
    let verdict = find(automaton, strip, work);
    clear(work);
    Ok(verdict)
}

/// Leaves a lasso of fewest steps in the strip, or a strip of 0 where there is none; the work list may hold anything before and after.
fn find<A: Automaton>(automaton: &A, strip: &mut [u32], work: &mut [u32]) -> Verdict
    requires strip { strip_words (A.Automaton.meaning automaton.now).states ≤ length strip.old }
    requires work { work_words (A.Automaton.meaning automaton.now).states ≤ length work.old }
    ensures { ShortestFound (A.Automaton.meaning automaton.now) strip.new result }
{
    let n = automaton.states() as usize;
    let (mut found, rest) = Search::over(n, work);
    let (mut back, _) = Search::over(n, rest);
    let Some(steps) = find_in(automaton, &mut found, &mut back, strip) else {
        clear(strip);
        return Verdict::Ranking;
    };
    let used = 4 + 2 * steps as usize;
    strip[used..].fill(0);
    Verdict::Lasso
}

/// How many steps a lasso has that has fewest, if there is one; it then opens the strip.
fn find_in<A: Automaton>(
    automaton: &A,
    found: &mut Search,
    back: &mut Search,
    strip: &mut [u32],
) -> Option<u32>
    requires wide { Wide (A.Automaton.meaning automaton.now) found.old }
    requires back { Wide (A.Automaton.meaning automaton.now) back.old }
    requires strip { strip_words (A.Automaton.meaning automaton.now).states ≤ length strip.old }
    ensures { MatchOption result (SomeLasso (A.Automaton.meaning automaton.now) → ⊥) (TellsShortest (A.Automaton.meaning automaton.now) strip.new) }
{
    found.begin_at_starts(automaton);
    found.spread(automaton);
    let found = &*found;
    let mut best = None;
    for &g in found.reached() {
        best = improve(automaton, g, best, found, back, strip);
    }
    best
}

/// Tells a lasso whose loop begins at `g`, if one has fewer steps than the best so far; answers how many the lasso in the strip has now, if there is one.
fn improve<A: Automaton>(
    automaton: &A,
    g: u32,
    best: Option<u32>,
    found: &Search,
    back: &mut Search,
    strip: &mut [u32],
) -> Option<u32>
    requires found { FromStarts (A.Automaton.meaning automaton.now) found.now }
    requires reached { 0 < at found.now.distance.now g }
    requires back { Wide (A.Automaton.meaning automaton.now) back.old }
    requires room { strip_words (A.Automaton.meaning automaton.now).states ≤ length strip.old }
    requires tells { TellsBest (A.Automaton.meaning automaton.now) strip.old best }
    ensures tells { TellsBest (A.Automaton.meaning automaton.now) strip.new result }
    ensures no_worse { NoWorse best result }
    ensures least { T ((A.Automaton.meaning automaton.now).good g) → NoShorter (A.Automaton.meaning automaton.now) g (at found.now.distance.now g) result }
    ensures wide { Wide (A.Automaton.meaning automaton.now) back.new }
{
    let stem = found.distance[g as usize] - 1;
    if is_at_most(best, stem + 1) || !automaton.is_good(g) {
        return best;
    }
    let Some(t) = last_of_return(automaton, g, stem, best, back) else {
        return best;
    };
    tell_lasso(automaton, g, t, found, back, strip);
    Some(stem + back.distance[t as usize])
}

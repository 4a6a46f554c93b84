//! Lassos told in a strip, from the parents that searches left.
ghost use Rattle.std.specs.Prelude.{◌≡◌, ℕ, ◌+◌, ◌*◌, ◌<◌, ◌≤◌, T, length, slice_set};
ghost use Rattle.omega.specs.Automata.{most_states};
ghost use Rattle.distances.specs.Trees.{at};
ghost use Rattle.evidence.specs.Strips.{TellsLasso, stem_of, loop_of, verdict_number};
ghost use Rattle.evidence.specs.declared.verdict.Verdict.TheVariants as verdict;
ghost use Rattle.lending.specs.Lending.{strip_words};
ghost use Rattle.emptiness.specs.Parts.{Tracing, FromStarts, Round, TellsPath};

use crate::breadth::Search;
use crate::letters::letter_of;
use automaton::Automaton;
use evidence::Verdict;

/// Writes state `i` of a lasso's strip and the letter of the step from it.
fn write_step(strip: &mut [u32], i: usize, state: u32, letter: u32)
    requires few { i ≤ 2 * most_states }
    requires room { 4 + 2 * i < length strip.old }
    ensures { strip.new ≡ slice_set (slice_set strip.old (4 + 2 * i) letter) (3 + 2 * i) state }
{
    strip[4 + 2 * i] = letter;
    strip[3 + 2 * i] = state;
}

/// Writes what closes a lasso of `m` and `q` steps at the state `g`: the letter of its last step, `g` once more, and the opening words.
fn close(strip: &mut [u32], m: u32, q: u32, g: u32, letter: u32)
    requires { 4 + 2 * (m + q) ≤ length strip.old }
    ensures { strip.new ≡ slice_set (slice_set (slice_set (slice_set (slice_set strip.old (2 + 2 * (m + q)) letter) (3 + 2 * (m + q)) g) 0 (verdict_number verdict.Lasso)) 1 m) 2 q }
{
    let steps = m as usize + q as usize;
    strip[2 + 2 * steps] = letter;
    strip[3 + 2 * steps] = g;
    strip[0] = u32::from(Verdict::Lasso);
    strip[1] = m;
    strip[2] = q;
}

/// Tells the path to `s` that a search found, from state `o` of the strip on.
fn tell_path<A: Automaton>(automaton: &A, found: &Search, s: u32, o: usize, strip: &mut [u32])
    requires traced { Tracing (A.Automaton.meaning automaton.now) found.now }
    requires reached { 0 < at found.now.distance.now s }
    requires few { o ≤ most_states }
    requires room { 2 + 2 * (o + at found.now.distance.now s) ≤ length strip.old }
    ensures { (k : ℕ) → at found.now.distance.now s ≡ k + 1 → TellsPath (A.Automaton.meaning automaton.now) found.now.distance.now strip.old strip.new o k s }
{
    let far = found.distance[s as usize] as usize - 1;
    strip[3 + 2 * (o + far)] = s;
    let mut t = s;
    for left in (0..far).rev() {
        let before = found.parent[t as usize];
        let letter = letter_of(automaton, before, t);
        write_step(strip, o + left, before, letter);
        t = before;
    }
}

/// Tells the lasso that goes to `g` as one search found, then to `t` as a search from `g` found, and back to `g`.
pub(crate) fn tell_lasso<A: Automaton>(
    automaton: &A,
    g: u32,
    t: u32,
    found: &Search,
    back: &Search,
    strip: &mut [u32],
)
    requires found { FromStarts (A.Automaton.meaning automaton.now) found.now }
    requires back { Round (A.Automaton.meaning automaton.now) g back.now t }
    requires reached { 0 < at found.now.distance.now g }
    requires good { T ((A.Automaton.meaning automaton.now).good g) }
    requires room { strip_words (A.Automaton.meaning automaton.now).states ≤ length strip.old }
    ensures tells { TellsLasso (A.Automaton.meaning automaton.now) strip.new }
    ensures stem { stem_of strip.new + 1 ≡ at found.now.distance.now g }
    ensures round { loop_of strip.new ≡ at back.now.distance.now t }
{
    let m = found.distance[g as usize] - 1;
    let q = back.distance[t as usize];
    tell_path(automaton, found, g, 0, strip);
    tell_path(automaton, back, t, m as usize, strip);
    let letter = letter_of(automaton, t, g);
    close(strip, m, q, g, letter);
}

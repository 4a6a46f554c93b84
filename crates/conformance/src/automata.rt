//! A whole automaton in one line, by the five questions.
ghost use Rattle.std.specs.Prelude.{◌≡◌, ◌/◌, ◌%◌, ◌^◌, ◌<◌, IfOk, if◌then◌else◌};
ghost use Rattle.conformance.specs.Lines.{listed_where, is_marked_at, marked_text, letters_of_step, digit_in_hex, hex_text, text_of_step, row_text, steps_text, text_of_automaton};

use automaton::{Automaton, has_step, letters};
use std::alloc::{AllocError, Global};

/// What a state may be marked as.
// An enum and no closure: what is printed is defined by the marks too.
#[derive(Clone, Copy)]
pub enum Mark {
    Start,
    Good,
}

/// Whether a number is a state with a mark.
fn has_mark<A: Automaton>(automaton: &A, mark: Mark, s: u32) -> bool
    ensures { result ≡ is_marked_at (A.Automaton.meaning automaton.now) mark s }
{
    match mark {
        Mark::Start => automaton.is_start(s),
        Mark::Good => automaton.is_good(s),
    }
}

/// A number behind a space, if it is to be listed.
fn listed_if(heap: Global, yes: bool, s: u32) -> Result<Vec<u8>, AllocError>
    ensures { IfOk result (λ v. v.items ≡ listed_where yes s) }
{
    if !yes {
        return Ok(Vec::new(heap));
    }
    let text = format!(in heap; " {s}")?;
    Ok(text.into_bytes())
}

/// The states that have a mark.
// This loop and those of `row` and `steps` stay apart: one for the three would be handed a closure that allocates, and could promise only something about whatever that writes.
fn marked<A: Automaton>(heap: Global, automaton: &A, mark: Mark) -> Result<Vec<u8>, AllocError>
    ensures { IfOk result (λ v. v.items ≡ marked_text (A.Automaton.meaning automaton.now) mark) }
{
    let mut text = Vec::new(heap);
    for s in 0..automaton.states() {
        let item = listed_if(heap, has_mark(automaton, mark, s), s)?;
        text.extend_from_slice(item.as_slice())?;
    }
    Ok(text)
}

/// The set of a letter by which a step leads from `s` to `t`, else the empty set.
fn step_letter<A: Automaton>(automaton: &A, s: u32, a: u32, t: u32) -> u32
    requires { a < 16 }
    ensures { result ≡ (if (A.Automaton.meaning automaton.now).step s a t then 2 ^ a else 0) }
{
    if has_step(automaton, s, a, t) {
        1 << a
    } else {
        0
    }
}

/// The letters by which a step leads from `s` to `t`: bit a is letter a.
fn step_letters<A: Automaton>(automaton: &A, s: u32, t: u32) -> u32
    ensures is { result ≡ letters_of_step (A.Automaton.meaning automaton.now) s t }
    ensures few { result < 65536 }
{
    let mut set = 0;
    for a in 0..letters(automaton) {
        set += step_letter(automaton, s, a, t);
    }
    set
}

/// A hexadecimal digit.
fn hex_digit(d: u32) -> u8
    requires { d < 16 }
    ensures { result ≡ digit_in_hex d }
{
    if d < 10 {
        b'0' + d as u8
    } else {
        b'a' - 10 + d as u8
    }
}

/// Four hexadecimal digits.
// No `{:04x}`: of a padded number a clause would speak by fill, width and flags, where four digits say what is meant.
fn hex(n: u32) -> [u8; 4]
    ensures { result ≡ hex_text n }
{
    [
        hex_digit(n / 4096 % 16),
        hex_digit(n / 256 % 16),
        hex_digit(n / 16 % 16),
        hex_digit(n % 16),
    ]
}

/// The steps between two states, if there are any.
fn step_text(heap: Global, s: u32, t: u32, letters: u32) -> Result<Vec<u8>, AllocError>
    ensures { IfOk result (λ v. v.items ≡ text_of_step s t letters) }
{
    if letters == 0 {
        return Ok(Vec::new(heap));
    }
    let mut text = format!(in heap; " {s}>{t}:")?.into_bytes();
    let digits = hex(letters);
    text.extend_from_slice(&digits)?;
    Ok(text)
}

/// The steps from one state.
fn row<A: Automaton>(heap: Global, automaton: &A, s: u32) -> Result<Vec<u8>, AllocError>
    ensures { IfOk result (λ v. v.items ≡ row_text (A.Automaton.meaning automaton.now) s) }
{
    let mut text = Vec::new(heap);
    for t in 0..automaton.states() {
        let item = step_text(heap, s, t, step_letters(automaton, s, t))?;
        text.extend_from_slice(item.as_slice())?;
    }
    Ok(text)
}

/// The steps from all states.
fn steps<A: Automaton>(heap: Global, automaton: &A) -> Result<Vec<u8>, AllocError>
    ensures { IfOk result (λ v. v.items ≡ steps_text (A.Automaton.meaning automaton.now)) }
{
    let mut text = Vec::new(heap);
    for s in 0..automaton.states() {
        let item = row(heap, automaton, s)?;
        text.extend_from_slice(item.as_slice())?;
    }
    Ok(text)
}

/// A whole automaton: how many states and signals, the starts, the good states, and the steps as `s>t:letters`.
pub(crate) fn automaton_text<A: Automaton>(
    heap: Global,
    automaton: &A,
) -> Result<Vec<u8>, AllocError>
    ensures { IfOk result (λ v. v.items ≡ text_of_automaton (A.Automaton.meaning automaton.now)) }
{
    let n = automaton.states();
    let p = automaton.signals();
    let mut text = format!(in heap; "read {n} {p} starts")?.into_bytes();
    let starts = marked(heap, automaton, Mark::Start)?;
    text.extend_from_slice(starts.as_slice())?;
    text.extend_from_slice(b" good")?;
    let goods = marked(heap, automaton, Mark::Good)?;
    text.extend_from_slice(goods.as_slice())?;
    text.extend_from_slice(b" steps")?;
    let steps = steps(heap, automaton)?;
    text.extend_from_slice(steps.as_slice())?;
    Ok(text)
}

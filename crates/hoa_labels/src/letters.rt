//! Sets of letters.
ghost use Rattle.std.specs.Prelude.{◌≡◌, ℕ, ◌^◌, ◌<◌, ◌≤◌, true, MatchOption, bit_and, bit_or, bit_xor};
ghost use Rattle.hoa_grammar.specs.Documents.{most_signals};
ghost use Rattle.hoa_grammar.specs.Labels.{on};
ghost use Rattle.hoa_labels.specs.Letters.{Means};
ghost use Rattle.hoa_labels.specs.Sets.{set_of};

use automaton::MOST_SIGNALS;

/// How many signals a letter is made of: at most four.
#[derive(Clone, Copy)]
pub struct Signals {
    pub(crate) count: u32,
    ghost few: { count ≤ most_signals },
}

/// All letters of so many signals.
// Five constants and no shift, as a table has it: each is the set by computing, where a power of two would need a lemma on its bits.
fn all_of(count: u32) -> u16
    requires { count ≤ most_signals }
    ensures { result ≡ set_of (λ a. true) (2 ^ count) }
{
    match count {
        0 => 0x0001,
        1 => 0x0003,
        2 => 0x000f,
        3 => 0x00ff,
        _ => 0xffff,
    }
}

/// The letters of four signals in which one is on.
fn with_on(signal: u32) -> u16
    requires { signal < most_signals }
    ensures { result ≡ set_of (on signal) (2 ^ most_signals) }
{
    match signal {
        0 => 0xaaaa,
        1 => 0xcccc,
        2 => 0xf0f0,
        _ => 0xff00,
    }
}

/// The letters that are in both sets.
pub(crate) fn both(x: u16, y: u16) -> u16
    ensures { result ≡ bit_and x y }
{
    x & y
}

/// The letters that are in either set.
pub(crate) fn either(x: u16, y: u16) -> u16
    ensures { result ≡ bit_or x y }
{
    x | y
}

impl Signals {
    /// So many signals; none above four.
    pub fn new(count: u32) -> Option<Signals>
        ensures { MatchOption result (most_signals < count) (λ x. x.count ≡ count) }
    {
        if count > MOST_SIGNALS {
            return None;
        }
        Some(Signals { count })
    }

    /// All letters.
    pub fn all_letters(self) -> u16
        ensures { Means self.count (λ a. true) result }
    {
        all_of(self.count)
    }

    /// The letters in which a signal is on.
    pub(crate) fn letters_with(self, signal: u32) -> u16
        requires { signal < self.count }
        ensures { Means self.count (on signal) result }
    {
        both(self.all_letters(), with_on(signal))
    }

    /// The letters that are not in a set.
    pub(crate) fn others(self, letters: u16) -> u16
        ensures { (all : ℕ) × Means self.count (λ a. true) all × (result ≡ bit_xor letters all) }
    {
        letters ^ self.all_letters()
    }
}

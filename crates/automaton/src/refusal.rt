//! Why parts cannot be put together.
ghost use Rattle.std.specs.Prelude.{◌≡◌};
ghost use Rattle.automaton.specs.Parts.{parts_number};

/// Why parts cannot be put together. The number of a case is the one that is printed.
#[derive(Clone, Copy, PartialEq, Eq, Debug)]
pub enum PartsRefusal {
    /// The parts have different numbers of signals.
    SignalsDiffer = 31,
    /// The pair would have more than 65,536 states.
    TooManyStates = 32,
    /// The signals have different names.
    NamesDiffer = 33,
    /// The signal is not below the number of signals, or these are more than 4.
    NoSuchSignal = 34,
}

impl From<PartsRefusal> for u8 {
    ghost from_gives = { λ refusal number. number ≡ parts_number refusal };

    fn from(refusal: PartsRefusal) -> u8 {
        refusal as u8
    }
}

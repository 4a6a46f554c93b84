//! Why a text is not read, a name not handed out, and two texts not matched.
ghost use Rattle.std.specs.Prelude.{◌≡◌};
ghost use Rattle.hoa_text.specs.declared.refusal.ReadRefusal.TheVariants as read;
ghost use Rattle.hoa_text.specs.declared.refusal.NameRefusal.TheVariants as named;

use automaton::PartsRefusal;
use hoa_tokens::Fault;
use tables::LenderRefusal;

/// Why a text is not read into a table: for want of cells, or for a fault of the text.
#[derive(Clone, Copy, PartialEq, Eq, Debug)]
pub enum ReadRefusal {
    Lender(LenderRefusal),
    Text(Fault),
}

/// Why a name is not handed out: for a fault of the text, or since there is no such signal.
#[derive(Clone, Copy, PartialEq, Eq, Debug)]
pub enum NameRefusal {
    Text(Fault),
    Parts(PartsRefusal),
}

/// Why two texts do not match: for a fault of the first or the second, or since their signals or names differ.
#[derive(Clone, Copy, PartialEq, Eq, Debug)]
pub enum MatchRefusal {
    First(Fault),
    Second(Fault),
    Parts(PartsRefusal),
}

impl From<LenderRefusal> for ReadRefusal {
    ghost from_gives = { λ refusal e. e ≡ read.Lender refusal };

    fn from(refusal: LenderRefusal) -> ReadRefusal {
        ReadRefusal::Lender(refusal)
    }
}

impl From<Fault> for ReadRefusal {
    ghost from_gives = { λ fault e. e ≡ read.Text fault };

    fn from(fault: Fault) -> ReadRefusal {
        ReadRefusal::Text(fault)
    }
}

impl From<Fault> for NameRefusal {
    ghost from_gives = { λ fault e. e ≡ named.Text fault };

    fn from(fault: Fault) -> NameRefusal {
        NameRefusal::Text(fault)
    }
}

impl From<PartsRefusal> for NameRefusal {
    ghost from_gives = { λ refusal e. e ≡ named.Parts refusal };

    fn from(refusal: PartsRefusal) -> NameRefusal {
        NameRefusal::Parts(refusal)
    }
}

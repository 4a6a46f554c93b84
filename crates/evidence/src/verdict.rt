//! What a strip tells.
ghost use Rattle.std.specs.Prelude.{◌≡◌};
ghost use Rattle.evidence.specs.Strips.{verdict_number};
ghost use Rattle.evidence.specs.Verdicts.{VerdictRead};

/// What a strip tells. The number of a case is the strip's first word.
#[derive(Clone, Copy, PartialEq, Eq, Debug)]
pub enum Verdict {
    /// A lasso: some endless word is accepted.
    Lasso = 1,
    /// A ranking: no endless word is accepted.
    Ranking = 2,
}

/// A word that is no verdict's.
#[derive(Clone, Copy, PartialEq, Eq, Debug)]
pub struct UnknownVerdict(pub u32);

impl From<Verdict> for u32 {
    ghost from_gives = { λ verdict number. number ≡ verdict_number verdict };

    fn from(verdict: Verdict) -> u32 {
        verdict as u32
    }
}

impl TryFrom<u32> for Verdict {
    type Error = UnknownVerdict;

    ghost try_from_gives = { VerdictRead };

    fn try_from(word: u32) -> Result<Verdict, UnknownVerdict> {
        match word {
            1 => Ok(Verdict::Lasso),
            2 => Ok(Verdict::Ranking),
            _ => Err(UnknownVerdict(word)),
        }
    }
}

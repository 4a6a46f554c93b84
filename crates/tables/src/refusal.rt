//! What the lender of memory is refused for.
ghost use Rattle.std.specs.Prelude.{◌≡◌};
ghost use Rattle.tables.specs.Refusals.{lender_number};

/// Why lent memory is refused. The number of a case is the one that is printed.
#[derive(Clone, Copy, PartialEq, Eq, Debug)]
pub enum LenderRefusal {
    /// Fewer than 4,096 cells.
    TooFewCells = 21,
    /// A strip of fewer than 4n + 4 words, for n states.
    ShortStrip = 22,
    /// A work list of fewer than 8n words, for n states.
    ShortWork = 23,
}

impl From<LenderRefusal> for u8 {
    ghost from_gives = { λ refusal number. number ≡ lender_number refusal };

    fn from(refusal: LenderRefusal) -> u8 {
        refusal as u8
    }
}

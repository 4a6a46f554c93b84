//! Endless words, automata that accept them, lassos and rankings: the definitions, and the laws between them.
//!
//! There is no code here to run. Each function holds the place of a law until a call that it belongs to cites it.
#![tactic(auto)]

ghost use Rattle.omega.specs.Laws.{RankingRefutes, LassoShowsWord, WordGivesLasso, LassoOrLeast};

/// A ranking rules out every accepted word.
pub fn ranking_refutes()
    ensures { RankingRefutes }
{}

/// A lasso gives an accepted word.
pub fn lasso_shows_word()
    ensures { LassoShowsWord }
{}

/// An accepted word gives a lasso.
pub fn word_gives_lasso()
    ensures { WordGivesLasso }
{}

/// Without a lasso there is a least ranking.
pub fn lasso_or_least()
    ensures { LassoOrLeast }
{}

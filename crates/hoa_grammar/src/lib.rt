//! The grammar of the text: documents as trees, the tokens that write them, and the laws of reading.
//!
//! There is no code here to run. Each function holds the place of a law until a call that it belongs to cites it.
#![tactic(auto)]

ghost use Rattle.hoa_grammar.specs.Laws.{EveryTextRead, OneDocument, OneFault, FaultExcludesDocument};

/// Every text is a document that keeps the limits, or has a first fault.
pub fn every_text_read()
    ensures { EveryTextRead }
{}

/// Tokens write one document only.
pub fn one_document()
    ensures { OneDocument }
{}

/// A text has one first fault only.
pub fn one_fault()
    ensures { OneFault }
{}

/// A text with a first fault writes no document.
pub fn fault_excludes_document()
    ensures { FaultExcludesDocument }
{}

//! Worked examples of automata, strips, labels and texts, shown from the definitions by one check over their list.
//!
//! There is no code here to run: the list stands in `specs/Examples.antt`, and what each example says in `specs/Cases.antt`.
#![tactic(auto)]

ghost use Rattle.std.specs.List.{AllByRecursion};
ghost use Rattle.worked.specs.Cases.{Holds};
ghost use Rattle.worked.specs.Examples.{examples};

/// Every worked example holds.
pub fn worked_examples()
    ensures { AllByRecursion Holds examples }
{}

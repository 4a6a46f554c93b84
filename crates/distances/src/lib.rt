//! Breadth-first trees: the definitions, and what a finished or a broken-off search says of all paths. There is no code here to run.
#![tactic(auto)]

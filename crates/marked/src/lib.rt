// The marked examples of the paper, as one table: a statement about the definitions alone, with no code of its own.
#![tactic(auto)]

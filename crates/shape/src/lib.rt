// The words of the lines of a right text are those of statements: theorems alone.
#![tactic(auto)]

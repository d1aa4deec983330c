// What the verdicts of the search mean for complete input vectors: theorems alone, over the definitions and the promise.
#![tactic(auto)]

// What the outcomes of the search for a list mean for complete input vectors: theorems alone, over the promise.
#![tactic(auto)]

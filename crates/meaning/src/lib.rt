// What the answers say about complete input vectors: theorems about the definitions alone, with no code of its own.
#![tactic(auto)]

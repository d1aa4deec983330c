// What the answer of the search over head lines means.
#![tactic(auto)]

// What the entries of a clocked circuit mean over Booleans.
#![tactic(auto)]

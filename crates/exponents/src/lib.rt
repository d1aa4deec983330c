// How hard each line of a circuit is to set: definitions and what is so of them.
#![tactic(auto)]

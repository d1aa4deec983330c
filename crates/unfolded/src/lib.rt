// The circuit unfolded over several clock steps.
#![tactic(auto)]

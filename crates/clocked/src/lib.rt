// The clocked circuit, and that the unfolded one does what it does.
#![tactic(auto)]

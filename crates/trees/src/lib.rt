// The trees of free lines: how they are set without going back, and that this gives the head lines their values.
#![tactic(auto)]

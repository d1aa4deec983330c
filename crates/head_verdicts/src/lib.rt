// The search over head lines: what a node says, and what the verdicts mean.
#![tactic(auto)]

// Bound lines, free lines and head lines: definitions and what is so of them.
#![tactic(auto)]

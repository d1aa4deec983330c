// What it means for the part on the bench that a fault remains: theorems alone, with no code of its own.
#![tactic(auto)]

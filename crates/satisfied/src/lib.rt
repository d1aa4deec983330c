// Demand 3: what the words that the clause writer writes say of the complete vectors that detect the fault. No code, only theorems.
#![tactic(auto)]

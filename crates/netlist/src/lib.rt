// What the circuit records of a net are and compute: theorems alone.
#![tactic(auto)]

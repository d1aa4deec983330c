// What a text of the bench notation means, and that the records compute it: theorems alone.
#![tactic(auto)]

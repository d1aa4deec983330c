// What the places of the names say, in words over the text; there is no code here.
#![tactic(auto)]

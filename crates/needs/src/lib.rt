// What a table of entries asks of a set of patterns: the definitions stand in specs/, what follows from them in proofs/.
#![tactic(auto)]

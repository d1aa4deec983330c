// Search and solver agree: what one says of a fault the other says too. There is no code: the theorem stands in proofs/.
#![tactic(auto)]

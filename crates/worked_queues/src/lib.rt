// The worked cases of joining, serving and topping up, with their refusals.
#![tactic(auto)]

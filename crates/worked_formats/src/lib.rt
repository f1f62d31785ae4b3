// The worked cases of kinds of words, of orders and of states.
#![tactic(auto)]

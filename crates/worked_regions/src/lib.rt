// The worked cases of regions: what two tables make together, in words, and why a threshold is of a full list and of no later table. No code.
#![tactic(auto)]

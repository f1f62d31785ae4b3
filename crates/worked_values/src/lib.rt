// The worked cases of conditions, of what evaluating one reads, of registers and of reports on them.
#![tactic(auto)]

// The worked cases of the rules (docs/RULES.md, 11) on the three-stem wood, those of years and of thresholds, the refusals and the misreadings: tables and
// a theorem for each, no code.
#![tactic(auto)]

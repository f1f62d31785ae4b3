// Sixteen registers of some values, their merging, and what a report counts of them: definitions and laws, no code.
#![tactic(auto)]

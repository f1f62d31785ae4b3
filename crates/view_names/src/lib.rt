// What an adviser sees of rows of strings, numbered by itself, which is what the call shows of their words; that names of hidden rows change nothing.
// Definitions and laws only.
#![tactic(auto)]

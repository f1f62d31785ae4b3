// What an adviser may see: the tables of the rows that a grant makes visible, tests 20 and 21, answer and buffers; hidden rows change none of these.
// Definitions and laws, no code.
#![tactic(auto)]

// A query has one answer, and lists that differ from it are none; what SPARQL's definitions are on worked woods. There is no code.
#![tactic(auto)]

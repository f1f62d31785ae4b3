// Comparisons with a text, a name or a number that no row has: on words they have the value that SPARQL gives them on strings. There is no code.
#![tactic(auto)]

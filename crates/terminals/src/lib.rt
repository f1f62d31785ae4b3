// What each token of a text is for the grammar: keywords and signs by their spelling, names by the prefixes that are declared, numbers, texts with their
// datatypes, years. The definitions, and the words that they are written as.
#![tactic(auto)]

// The grammar of a query's text as rows of cells, the machine that reads tokens by it, and the syntax trees that words are built to. The definitions.
#![tactic(auto)]

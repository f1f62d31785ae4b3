// The lists that a turn writes and a merge reads, as defined: delivered rows, best-of lists, group records, registers; merging; tests 7, 11, 12 and 13.
// No code.
#![tactic(auto)]

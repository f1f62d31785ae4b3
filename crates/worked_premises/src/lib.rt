// The worked cases of what theorems ask for: histories that are not tidy, an owner among others, a line of owners, tables that differ in hidden rows.
#![tactic(auto)]

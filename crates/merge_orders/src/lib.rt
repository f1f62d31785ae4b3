// Turns' lists merged in any order and grouping: that they give the same words and make the uncut run's list, and by which numbers such a merge is
// refused. No code.
#![tactic(auto)]

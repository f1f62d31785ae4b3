// Any list of turns, merges and joins adds up to the uncut run, demand 3: the positions of its turns on that run. Definitions and theorem, no code.
#![tactic(auto)]

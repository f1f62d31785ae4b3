// One owner's query among the calls of all: its turns in the queue are a cut of its own, and the turns before an owner's can be had. Definitions and
// theorems.
#![tactic(auto)]

// Truth, order and gathering of before numbers had a sign, and plans of when a k of 0 meant 64: finished queries have the lists of before. Definitions and
// theorems, no code.
#![tactic(auto)]

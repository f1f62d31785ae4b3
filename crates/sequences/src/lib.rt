// Lists of anything: small functions on them, orders, sorting and a merge sort in place, words over a buffer: definitions and laws.
#![tactic(auto)]

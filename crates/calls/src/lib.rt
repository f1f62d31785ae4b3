// One schema of a call: the definitions and the theorem that every call is an instance of.
#![tactic(auto)]

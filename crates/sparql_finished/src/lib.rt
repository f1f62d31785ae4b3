// Demands 2 and 3 together: a finished query, and a play that finishes, have SPARQL's answer, however they were cut. No code.
#![tactic(auto)]

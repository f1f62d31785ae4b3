// Laws only: a finished query, a play that finishes and lists merged late have SPARQL's answer over the strings of two right dictionaries.
#![tactic(auto)]

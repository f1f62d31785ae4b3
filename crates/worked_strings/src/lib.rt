// Three stems with names and texts in literal bytes, encoded, asked, decoded, and seen by an adviser. Definitions and laws only.
#![tactic(auto)]

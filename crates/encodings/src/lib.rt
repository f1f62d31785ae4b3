// Terms and rows of strings and whole numbers as words by dictionaries, and the dictionaries of just their strings; decoded again they are those rows.
// Definitions and laws only.
#![tactic(auto)]

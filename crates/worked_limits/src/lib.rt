// The worked cases of limits, of years that rows and plans may have, of places in several years, of faults, of the record of no rows and of survey
// numbers.
#![tactic(auto)]

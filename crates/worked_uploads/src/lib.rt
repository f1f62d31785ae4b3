// The worked cases of uploads, of views and of owners.
#![tactic(auto)]

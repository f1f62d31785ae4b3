// Tables split by subject: a plan whose branches have one subject variable each has the same solutions over the parts as over the whole. No code.
#![tactic(auto)]

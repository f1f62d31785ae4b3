// A region: many tables, one plan, one answer. What the turns of all its tables make, joined or merged, after any part of it and at its end. No code.
#![tactic(auto)]

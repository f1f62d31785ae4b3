// Conditions: true, false, error; comparisons; the value of a condition, what evaluating it reads and skips, and where operands stand.
#![tactic(auto)]

// SPARQL's three values of a condition.
#[derive(Clone, Copy)]
pub enum Truth {
    True,
    False,
    Error,
}

// A condition evaluated: its value, and how many of its comparisons were read.
#[derive(Clone, Copy)]
pub struct Evaluated {
    pub truth: Truth,
    pub reads: usize,
}

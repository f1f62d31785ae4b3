// Branches: what stands in one that was read.
ghost use Rattle.std.specs.Prelude.{◌≡◌, true, ◌≤◌, get_or};
ghost use Rattle.plans.specs.Conditions.{read_condition, most_depth};
ghost use Rattle.plans.specs.Branches.{pattern_count, most_patterns, read_branch};
ghost use Rattle.plans.specs.Reading.{is_read, branch_in, Gives};

use crate::searches::count_in;
use words::PlanWord;

// The fields of a pattern, and how many there are: its own, and not the columns of a row.
pub const SUBJECT_FIELD: usize = 0;

pub const PREDICATE_FIELD: usize = 1;

pub const OBJECT_FIELD: usize = 2;

pub const PATTERN_WIDTH: usize = 3;

pub const MOST_PATTERNS: u32 = 8;

// How many patterns the branch has that `p` starts with, or 0 where it starts with none.
pub fn pattern_count(p: &[u32]) -> usize
    ensures { (result ≡ pattern_count (get_or p.now 0 0)) × (result ≤ most_patterns) }
{
    words::wide(count_in(p, PlanWord::BRANCH, MOST_PATTERNS))
}

// The same of a branch that was read: the kind and the number in its first word are right.
fn patterns_read(p: &[u32]) -> usize
    requires { is_read (read_branch p.now) ≡ true }
    ensures { (result ≡ pattern_count (get_or p.now 0 0)) × (result ≤ most_patterns) }
{
    words::wide(PlanWord(p[0]).low())
}

// The terms of the patterns of the branch that `p` starts with.
pub fn terms(p: &[u32]) -> &[u32]
    requires { is_read (read_branch p.now) ≡ true }
    ensures { result.now ≡ (branch_in p.now).terms }
{
    let end = 1 + PATTERN_WIDTH * patterns_read(p);
    &p[1..end]
}

// The words from the condition of the branch that `p` starts with on.
pub fn condition_part(p: &[u32]) -> &[u32]
    requires { is_read (read_branch p.now) ≡ true }
    ensures { Gives (read_condition most_depth result.now) (branch_in p.now).condition }
{
    let end = 1 + PATTERN_WIDTH * patterns_read(p);
    &p[end..]
}

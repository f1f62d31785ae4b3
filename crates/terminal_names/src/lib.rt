// Names in code: a token's characters, the prefix of a name, and the last declaration of a prefix.
#![tactic(auto, unfolding(terminals::specs::Names::prefix_size))]

ghost use Rattle.std.specs.Prelude.{◌≡◌, cond, ◌+◌, ◌*◌, ◌≤◌, length, drop};
ghost use Rattle.dictionaries.specs.Strings.{same_string};
ghost use Rattle.terminals.specs.Names.{within, name_prefix, iri, nothing, last_declared};
ghost use Rattle.terminal_names.specs.Declaring.{letters_of, declared_at, declared_first};

use terminal_letters::{Letters, front, rest, run_size, same_string};

// The characters of the token whose words stand at `at`.
pub fn spelling<'a>(points: &'a [u32], tokens: &[u32], at: usize) -> &'a [u32]
    requires { at + 3 ≤ length tokens.now }
    ensures { result.now ≡ letters_of points.now (drop at tokens.now) }
{
    let start = words::wide(tokens[at + 1]);
    let size = words::wide(tokens[at + 2]);
    front(rest(points, start), size)
}

// The prefix of a name.
pub fn prefix_of(s: &[u32]) -> &[u32]
    ensures { result.now ≡ name_prefix s.now }
{
    front(s, run_size(s, Letters::NoColon))
}

// Where the IRI's words stand if the declaration at `at` is of `prefix`, else `found`.
fn newer(
    points: &[u32],
    tokens: &[u32],
    at: usize,
    prefix: &[u32],
    found: Option<usize>,
) -> Option<usize>
    requires { at + 9 ≤ length tokens.now }
    ensures { declared_at points.now tokens.now result
        ≡ cond (same_string prefix.now (name_prefix (letters_of points.now (drop (at + 3) tokens.now))))
        (iri (within (letters_of points.now (drop (at + 6) tokens.now))))
        (declared_at points.now tokens.now found) }
{
    if same_string(prefix, prefix_of(spelling(points, tokens, at + 3))) {
        Some(at + 6)
    } else {
        found
    }
}

// Where the words of the IRI stand that `prefix` stands for, by the last of the first `count` declarations, if one is of it.
pub fn declared_at(points: &[u32], tokens: &[u32], count: usize, prefix: &[u32]) -> Option<usize>
    requires { count * 9 ≤ length tokens.now }
    ensures { declared_at points.now tokens.now result
        ≡ last_declared (declared_first points.now count tokens.now) prefix.now nothing }
{
    let mut found = None;
    for i in 0..count {
        found = newer(points, tokens, 9 * i, prefix, found);
    }
    found
}

// Conditions of a plan: one read, and whether its variables are bound.
ghost use Rattle.std.specs.Prelude.{◌≡◌};
ghost use Rattle.plans.specs.Conditions.{read_condition, bound_in};
ghost use Rattle.plans.specs.Reading.{tree_of, SmallTree, comparison_tree, over_tree, join_trees};

use plans::{Node, Tree, node_of};
use words::Term;

// A comparison's words: itself and two terms.
pub const COMPARISON_WORDS: usize = 3;

// Whether `word` is no variable, or among `terms`, those of a branch.
fn is_bound(word: u32, terms: &[u32]) -> bool
    ensures { result ≡ bound_in terms.now word }
{
    if !Term(word).is_variable() {
        return true;
    }
    // no `contains`: it would be a call for each word
    for term in terms {
        if *term == word {
            return true;
        }
    }
    false
}

// The comparison that `p` starts with: its word and two terms.
fn comparison(p: &[u32], terms: &[u32]) -> Option<Tree>
    ensures { result ≡ comparison_tree terms.now p.now }
{
    if p.len() < COMPARISON_WORDS {
        return None;
    }
    Some(Tree {
        words: COMPARISON_WORDS,
        nodes: 1,
        bound: is_bound(p[1], terms) && is_bound(p[2], terms),
    })
}

// The condition `inner` under one more node.
fn over(inner: Tree) -> Tree
    requires { SmallTree inner }
    ensures { result ≡ over_tree inner }
{
    Tree {
        words: 1 + inner.words,
        nodes: 1 + inner.nodes,
        bound: inner.bound,
    }
}

// The conditions `first` and `second` under one node.
fn join(first: Tree, second: Tree) -> Tree
    requires { SmallTree first × SmallTree second }
    ensures { result ≡ join_trees first second }
{
    Tree {
        words: 1 + first.words + second.words,
        nodes: 1 + first.nodes + second.nodes,
        bound: first.bound && second.bound,
    }
}

// Reads the condition at the start of `p`, at most `left` deep, of a branch whose patterns have the terms `terms`.
pub fn condition(p: &[u32], left: u32, terms: &[u32]) -> Option<Tree>
    ensures { result ≡ tree_of terms.now (read_condition left p.now) }
{
    if left == 0 {
        return None;
    }
    if p.len() == 0 {
        return None;
    }
    match node_of(p[0]) {
        Node::Wrong => None,
        Node::Always => Some(Tree {
            words: 1,
            nodes: 1,
            bound: true,
        }),
        Node::Compared => comparison(p, terms),
        Node::Negated => {
            let inner = condition(&p[1..], left - 1, terms)?;
            Some(over(inner))
        }
        Node::Pair => {
            let first = condition(&p[1..], left - 1, terms)?;
            let skip = 1 + first.words;
            let second = condition(&p[skip..], left - 1, terms)?;
            Some(join(first, second))
        }
    }
}

// Constants of a query's text in comparisons: what becomes of one that the dictionary does not have or no table can hold, and its words in a plan.
#![tactic(auto)]

ghost use Rattle.std.specs.Prelude.{[], ◌∷◌, ◌++◌, ◌+◌, ◌≤◌, ◌<◌, length};
ghost use Rattle.words.specs.Words.{number, last_operator};
ghost use Rattle.plans.specs.Conditions.{compared};
ghost use Rattle.plans.specs.Grammar.{condition_words};
ghost use Rattle.constants.specs.Constants.{with_no_text, with_no_number, with_far, compared_with, Appended};

use words::PlanWord;

// What is known of a constant: its term, a name or a text that the dictionary does not have, the text with the term at its rank, or a number below or
// above all that a table can hold.
#[derive(Clone, Copy)]
pub enum Constant {
    Term(u32),
    NoName,
    NoText(u32),
    Below,
    Above,
}

// Writes a comparison of two terms behind the first `at` words of `out`, and answers where it ends.
fn write_comparison(out: &mut [u32], at: usize, o: u32, x: u32, y: u32) -> usize
    requires { (at + 3 ≤ length out.old) × (o ≤ last_operator) }
    ensures { Appended out.old at (condition_words (compared o x y)) out.new result }
{
    out[at] = PlanWord::comparison(o).0;
    out[at + 1] = x;
    out[at + 2] = y;
    at + 3
}

// Writes a word.
fn write_word(out: &mut [u32], at: usize, w: u32) -> usize
    requires { at < length out.old }
    ensures { Appended out.old at (w ∷ []) out.new result }
{
    out[at] = w;
    at + 1
}

// Writes a node and two comparisons, with the numbers 0 and 1.
fn write_pair(out: &mut [u32], at: usize, w: u32, o: u32, x: u32) -> usize
    requires { (at + 7 ≤ length out.old) × (o ≤ last_operator) }
    ensures { Appended out.old at
        (w ∷ (condition_words (compared o x (number 0)) ++ condition_words (compared o x (number 1)))) out.new result }
{
    let first = write_word(out, at, w);
    let second = write_comparison(out, first, o, x, 0x40000000);
    write_comparison(out, second, o, x, 0x40000001)
}

// Writes the comparison with a number that no row has, by = or by ≠.
fn write_no_number(out: &mut [u32], at: usize, o: u32, x: u32) -> usize
    requires { at + 7 ≤ length out.old }
    ensures { Appended out.old at (condition_words (with_no_number o x)) out.new result }
{
    if o == PlanWord::EQUAL {
        return write_pair(out, at, PlanWord::and().0, 0, x);
    }
    write_pair(out, at, PlanWord::or().0, 1, x)
}

// Writes the comparison with a text that no row has.
fn write_no_text(out: &mut [u32], at: usize, after: u32, ranked: u32, o: u32, x: u32) -> usize
    requires { at + 7 ≤ length out.old }
    ensures { Appended out.old at (condition_words (with_no_text after ranked o x)) out.new result }
{
    if o <= PlanWord::UNEQUAL {
        return write_comparison(out, at, o, x, after);
    }
    if o <= PlanWord::AT_MOST {
        return write_comparison(out, at, 2, x, ranked);
    }
    write_comparison(out, at, 5, x, ranked)
}

// Writes the comparison with a number that is out of a table's: `less` asks of `nearest`, the table's number next to it, what < and ≤ ask of the number,
// and `more` what > and ≥ ask.
fn write_far(
    out: &mut [u32],
    at: usize,
    o: u32,
    x: u32,
    less: u32,
    more: u32,
    nearest: u32,
) -> usize
    requires { (at + 7 ≤ length out.old) × (less ≤ last_operator) × (more ≤ last_operator) }
    ensures { Appended out.old at (condition_words (with_far less more nearest o x)) out.new result }
{
    if o <= PlanWord::UNEQUAL {
        return write_no_number(out, at, o, x);
    }
    let asked = if o <= PlanWord::AT_MOST { less } else { more };
    write_comparison(out, at, asked, x, nearest)
}

// Writes the comparison of a variable with a constant on its right; `unnamed` and `unwritten` are the words after the last name and the last text.
pub fn write_compared(
    out: &mut [u32],
    at: usize,
    unnamed: u32,
    unwritten: u32,
    o: u32,
    x: u32,
    c: Constant,
) -> usize
    requires { (at + 7 ≤ length out.old) × (o ≤ last_operator) }
    ensures { Appended out.old at (condition_words (compared_with unnamed unwritten o x c)) out.new result }
{
    match c {
        Constant::Term(w) => write_comparison(out, at, o, x, w),
        Constant::NoName => write_comparison(out, at, o, x, unnamed),
        Constant::NoText(ranked) => write_no_text(out, at, unwritten, ranked, o, x),
        Constant::Below => write_far(out, at, o, x, 2, 5, 0x60000000),
        Constant::Above => write_far(out, at, o, x, 3, 4, 0x5FFFFFFF),
    }
}
